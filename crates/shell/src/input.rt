// Standard input, where it leaves a byte of a buffer free.
ghost use Rattle.std.specs.Prelude.{◌≡◌, ◌≤◌, length, IfOk};
ghost use Rattle.grammar.specs.Grammars.{grammar_of};
ghost use Rattle.shell.specs.Input.{Within, long_refusal};

use grammar::Grammar;
use reading::Refusal;
use std::io;
use std::io::Read;

// Why there is no input.
#[derive(Clone, Copy, Debug, PartialEq, Eq)]
pub enum InputError {
    TooLong,
    Unreadable,
}

impl From<io::Error> for InputError {
    fn from(_error: io::Error) -> InputError {
        InputError::Unreadable
    }
}

// Reads until the buffer is full or the input ends. What was read is the start of the buffer, and no copy of it.
pub fn fill<'a, R: Read>(reader: &mut R, buffer: &'a mut [u8]) -> io::Result<&'a [u8]>
    ensures within { IfOk result (λ filled. length filled.now ≤ length buffer.old) }
    ensures start { IfOk result (λ filled. filled.ref_ptr ≡ buffer.entry.ref_ptr) }
{
    let mut n = 0;
    while n < buffer.len() {
        let k = reader.read(&mut buffer[n..])?;
        if k == 0 {
            break;
        }
        n += k;
    }
    Ok(&buffer[..n])
}

// Reads until the input ends. A buffer that is full before that holds a part of the input only, and an index of a part would look
// like an answer. A read that fails makes the whole input unreadable: what came before it is no text that anybody sent.
pub fn read<'a, R: Read>(reader: &mut R, text: &'a mut [u8]) -> Result<&'a [u8], InputError>
    ensures within { IfOk result (λ input. Within input.now (length text.old)) }
    ensures start { IfOk result (λ input. input.ref_ptr ≡ text.entry.ref_ptr) }
{
    let size = text.len();
    let input = fill(reader, text)?;
    if input.len() < size {
        Ok(input)
    } else {
        Err(InputError::TooLong)
    }
}

// How an input that is too long is refused. The library takes longer ones, so it is not asked.
pub fn long_refusal(grammar: u32) -> Refusal
    ensures { result ≡ long_refusal (grammar_of grammar) }
{
    match Grammar::from_number(grammar) {
        Some(_) => Refusal::TextTooLong,
        None => Refusal::UnknownGrammar,
    }
}
