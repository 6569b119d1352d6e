// The grammar that a word names, by its number. The library may not know the number.
ghost use Rattle.std.specs.Prelude.{◌≡◌};
ghost use Rattle.shell.specs.Words.{Names, extended, spelled};

use grammar::Grammar;

// A number below this one may have another digit: nine digits are the most.
const FEW_ENOUGH: u32 = 100000000;

// A number with one more character.
fn extend(number: u32, c: u8) -> Option<u32>
    ensures { result ≡ extended number c }
{
    match c {
        b'0'..=b'9' if number < FEW_ENOUGH => Some(number * 10 + u32::from(c - b'0')),
        _ => None,
    }
}

// The number that a word spells.
fn number(word: &[u8]) -> Option<u32>
    ensures { result ≡ spelled word.now }
{
    if word.is_empty() {
        return None;
    }
    let mut number = 0;
    for c in word {
        number = extend(number, *c)?;
    }
    Some(number)
}

pub fn of(word: &[u8]) -> Option<u32>
    ensures { Names word.now result }
{
    match word {
        b"lax" => Some(Grammar::LAX),
        b"standard" => Some(Grammar::STANDARD),
        b"strict" => Some(Grammar::STRICT),
        _ => number(word),
    }
}
