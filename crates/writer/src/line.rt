// A full line of the data: 48 bytes, 64 characters. It is written in two passes, first its values and then their characters: four
// values are stored at once, and sixteen characters made at once.
ghost use Rattle.std.specs.Prelude.{◌≡◌, length, map};
ghost use Rattle.base_64.specs.Alphabet.{Sextet, char_of};
ghost use Rattle.base_64.specs.Groups.{to_values, encode};
ghost use Rattle.writer.specs.Values.{step_from, low_char};

use crate::tables::ValuesTable;
use base_64::{GROUP_BYTES, GROUP_CHARS, Sextet};
use grammar::LINE_BYTES;

// The values of `a`, `0`, `+` and `/`; that of `A` is 0.
const LOWER_A: u8 = 26;

const DIGIT_0: u8 = 52;

const PLUS: u8 = 62;

const SLASH: u8 = 63;

// Where the alphabet goes on with another run, its characters are further on by so much, or further back: on at `a`, back at `0`
// and at `+`, and on at `/`.
const TO_LOWER: u8 = b'a' - b'A' - LOWER_A;

const TO_DIGITS: u8 = b'a' - LOWER_A + DIGIT_0 - b'0';

const TO_PLUS: u8 = b'0' + PLUS - DIGIT_0 - b'+';

const TO_SLASH: u8 = b'/' + PLUS - SLASH - b'+';

// Writes the values of a line.
fn put_values(table: &ValuesTable, line: &[u8], out: &mut [u8])
    requires { (length line.now ≡ 48) × (length out.old ≡ 64) }
    ensures { out.new ≡ to_values line.now }
{
    for q in 0..LINE_BYTES / GROUP_BYTES {
        let i = GROUP_BYTES * q;
        let number = table.number_of(line[i], line[i + 1], line[i + 2]);
        output::put_number(out, GROUP_CHARS * q, number);
    }
}

// A step of the alphabet, for a value that is not before its first.
fn step_from(first: u8, value: u8, step: u8) -> u8
    ensures { result ≡ step_from first value step }
{
    if first <= value { step } else { 0 }
}

// The character of a value, by sums: no table is read, so that many are made at once.
fn character(value: Sextet) -> u8
    ensures { result ≡ char_of value }
{
    let value = value.get();
    value + b'A' + step_from(LOWER_A, value, TO_LOWER)
        - step_from(DIGIT_0, value, TO_DIGITS)
        - step_from(PLUS, value, TO_PLUS)
        + step_from(SLASH, value, TO_SLASH)
}

// Makes characters of values. Their low bits are all that they have: so the compiler knows that they are small, which spares a step
// for each comparison.
fn make_chars(values: &mut [u8])
    ensures { values.new ≡ map low_char values.old }
{
    for c in values.iter_mut() {
        *c = character(Sextet::low(*c));
    }
}

// Writes the characters of a full line.
pub fn put_full_line(table: &ValuesTable, line: &[u8], out: &mut [u8])
    requires { (length line.now ≡ 48) × (length out.old ≡ 64) }
    ensures { out.new ≡ encode line.now }
{
    put_values(table, line, out);
    make_chars(out);
}
