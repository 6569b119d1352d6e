// Runs base64 on the test vectors of RFC 4648, section 10, in both directions, on every byte, and on the 256 bytes in order.
#![tactic(auto)]

use base_64::{DecodeTable, EncodeTable, RADIX, Sextet, ShortGroup};
use std::io;
use std::io::Write;

fn put(writer: &mut impl Write, c: u8) -> io::Result<()> {
    writer.write_all(&[c])
}

// The base 64 text of the bytes, and a line end.
fn encode(writer: &mut impl Write, chars: &EncodeTable, bytes: &[u8]) -> io::Result<()> {
    for group in bytes.chunks(base_64::GROUP_BYTES) {
        writer.write_all(&base_64::encode(chars, group))?;
    }
    writeln!(writer)
}

// The bytes of a short group, and the spare bits behind them.
fn put_short<const N: usize>(writer: &mut impl Write, group: ShortGroup<N>) -> io::Result<()> {
    writer.write_all(&group.bytes)?;
    write!(writer, " {}", group.spare)
}

fn two(values: &DecodeTable, a: u8, b: u8) -> Option<ShortGroup<1>> {
    Some(base_64::bytes_of_two(values.value_of(a)?, values.value_of(b)?))
}

fn three(values: &DecodeTable, a: u8, b: u8, c: u8) -> Option<ShortGroup<2>> {
    Some(base_64::bytes_of_three(
        values.value_of(a)?,
        values.value_of(b)?,
        values.value_of(c)?,
    ))
}

fn four(values: &DecodeTable, a: u8, b: u8, c: u8, d: u8) -> Option<[u8; 3]> {
    Some(base_64::bytes_of_four(
        values.value_of(a)?,
        values.value_of(b)?,
        values.value_of(c)?,
        values.value_of(d)?,
    ))
}

// The bytes of two to four characters; nothing where one is outside the alphabet.
fn decode_group(writer: &mut impl Write, values: &DecodeTable, group: &[u8]) -> io::Result<()> {
    match *group {
        [a, b] => {
            if let Some(group) = two(values, a, b) {
                put_short(writer, group)?;
            }
        }
        [a, b, c] => {
            if let Some(group) = three(values, a, b, c) {
                put_short(writer, group)?;
            }
        }
        [a, b, c, d] => {
            if let Some(bytes) = four(values, a, b, c, d) {
                writer.write_all(&bytes)?;
            }
        }
        _ => {}
    }
    Ok(())
}

// The bytes of the characters, with the spare bits behind a short group, and a line end.
fn decode(writer: &mut impl Write, values: &DecodeTable, text: &[u8]) -> io::Result<()> {
    for group in text.chunks(base_64::GROUP_CHARS) {
        decode_group(writer, values, group)?;
    }
    writeln!(writer)
}

// The characters in the order of their values.
fn every_value(writer: &mut impl Write, chars: &EncodeTable) -> io::Result<()> {
    let mut line = [0; 64];
    for (c, value) in line.iter_mut().zip(0..RADIX) {
        *c = chars.char_of(Sextet::low(value));
    }
    writer.write_all(&line)?;
    writeln!(writer)
}

// The character of each byte's value, in the order of the bytes; then how many bytes are outside.
fn every_byte(
    writer: &mut impl Write,
    chars: &EncodeTable,
    values: &DecodeTable,
) -> io::Result<()> {
    for value in (0u8..=255).filter_map(|c| values.value_of(c)) {
        put(writer, chars.char_of(value))?;
    }
    let outside = (0u8..=255).filter(|c| !values.is_character(*c)).count();
    writeln!(writer, "\n{outside}")
}

fn encode_vectors(writer: &mut impl Write, chars: &EncodeTable) -> io::Result<()> {
    for text in ["", "f", "fo", "foo", "foob", "fooba", "foobar"] {
        encode(writer, chars, text.as_bytes())?;
    }
    Ok(())
}

fn decode_vectors(writer: &mut impl Write, values: &DecodeTable) -> io::Result<()> {
    for text in ["Zg", "Zm8", "Zm9v", "Zm9vYg", "Zm9vYmE", "Zm9vYmFy"] {
        decode(writer, values, text.as_bytes())?;
    }
    // Spare bits that are not zero: 1 behind one byte, 3 behind two.
    for text in ["Zh", "Zm/"] {
        decode(writer, values, text.as_bytes())?;
    }
    Ok(())
}

fn bytes_in_order() -> [u8; 256] {
    let mut bytes = [0; 256];
    for (byte, i) in bytes.iter_mut().zip(0u8..=255) {
        *byte = i;
    }
    bytes
}

fn run(writer: &mut impl Write) -> io::Result<()> {
    let chars = EncodeTable::new();
    let values = DecodeTable::new();
    every_value(writer, &chars)?;
    every_byte(writer, &chars, &values)?;
    encode_vectors(writer, &chars)?;
    decode_vectors(writer, &values)?;
    encode(writer, &chars, &bytes_in_order())
}

fn main(rt: HostRuntime) -> io::Result<()> {
    run(&mut io::writer(&rt))
}
