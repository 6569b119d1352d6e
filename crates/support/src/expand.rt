// A text from its printable form. There '$' is LF, '%' CR, '&' HT, '(' VT, ')' FF, '*' 0, '?' DEL, '`' 0xC1 (an 'A' but for
// its top bit) and '^' 0xFF; what stands in braces is there as many times as a count says, and line ends are only for the eye.
use crate::bytes::Bytes;

// The byte that a character of the printable form stands for.
fn meaning(c: u8) -> u8 {
    match c {
        b'$' => b'\n',
        b'%' => b'\r',
        b'&' => b'\t',
        b'(' => 11,
        b')' => 12,
        b'*' => 0,
        b'?' => 127,
        b'`' => 0xC1,
        b'^' => 0xFF,
        _ => c,
    }
}

// Puts the text. What stands in braces is put `count` times.
pub fn expand(form: &[u8], count: u32, text: &mut Bytes) {
    let mut unit = 0;
    for c in form {
        match *c {
            b'\n' | b'@' => {}
            b'{' => unit = text.len(),
            b'}' => text.repeat(unit, count),
            c => text.push(meaning(c)),
        }
    }
}
