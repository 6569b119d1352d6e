// Data that a sample does not spell out.
use support::bytes::Bytes;

// Puts `count` bytes: the triangular numbers 0, 1, 3, 6 .. modulo 256. All 256 bytes are among them, and they repeat after 512,
// so that neither groups nor lines are alike.
pub fn make(data: &mut Bytes, count: usize) {
    let mut value = 0u8;
    for i in 0..count {
        value = value.wrapping_add((i % 256) as u8);
        data.push(value);
    }
}
