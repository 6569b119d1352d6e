// The fields of a sample, with ':' between them. One that is not there is empty.

// The field with `k` others before it.
pub fn field(form: &[u8], k: usize) -> &[u8] {
    form.split(|c| *c == b':').nth(k).unwrap_or(&[])
}

// All that stands behind the first `k` fields.
pub fn rest(form: &[u8], k: usize) -> &[u8] {
    let parts = k.saturating_add(1);
    form.splitn(parts, |c| *c == b':').nth(k).unwrap_or(&[])
}

// The number that a field spells, modulo 2 to the 32. Each byte up to '9' counts as a digit, by its low four bits.
pub fn number(field: &[u8]) -> u32 {
    field
        .iter()
        .filter(|c| **c <= b'9')
        .fold(0u32, |number, c| {
            number.wrapping_mul(10).wrapping_add(u32::from(*c % 16))
        })
}
