// What a line is made of, written to the writer that comes first. Each part but the name has a space before it.
use crate::lent;
use crate::lent::Answer;
use grammar::{Grammar, LineEnding};
use std::fmt::Display;
use std::io;
use std::io::Write;

// The most bytes of data that are printed one by one, and the most of a text.
const SHORT: usize = 48;

const SHORT_TEXT: usize = 200;

// The largest prime below 2 to the 16, of Adler-32.
const BASE: u32 = 65521;

// The start of a line.
pub fn name(writer: &mut impl Write, name: &[u8]) -> io::Result<()> {
    writer.write_all(name)?;
    writer.write_all(b":")
}

// What a number asks for, or the number where it asks for nothing.
fn asked(
    writer: &mut impl Write,
    number: u32,
    found: Option<impl Display + Drop>,
) -> io::Result<()> {
    match found {
        Some(found) => write!(writer, " {found}"),
        None => write!(writer, " {number}"),
    }
}

// The grammar of a call, and the room that it was lent.
pub fn lent(writer: &mut impl Write, grammar: u32, room: usize) -> io::Result<()> {
    asked(writer, grammar, Grammar::from_number(grammar))?;
    write!(writer, " {room}")
}

// Whether all behind a result is zero.
fn clean<T: Default + PartialEq + Drop>(writer: &mut impl Write, rest: &[T]) -> io::Result<()> {
    let zero = T::default();
    let word = if rest.iter().all(|x| *x == zero) {
        "clean"
    } else {
        "dirty"
    };
    write!(writer, " {word}")
}

// The checksum of RFC 1950.
fn adler32(bytes: &[u8]) -> u32 {
    let mut a = 1;
    let mut b = 0;
    for byte in bytes {
        a = (a + u32::from(*byte)) % BASE;
        b = (b + a) % BASE;
    }
    b * 65536 + a
}

fn checksum(writer: &mut impl Write, bytes: &[u8]) -> io::Result<()> {
    write!(writer, " adler32={:08x}", adler32(bytes))
}

// The bytes in hexadecimal digits, or the checksum of many.
fn data(writer: &mut impl Write, bytes: &[u8]) -> io::Result<()> {
    if SHORT < bytes.len() {
        return checksum(writer, bytes);
    }
    write!(writer, " data=")?;
    for byte in bytes {
        write!(writer, "{byte:02x}")?;
    }
    Ok(())
}

// The data at the start of an output, and whether all behind it is zero.
pub fn output(writer: &mut impl Write, out: &[u8], size: usize) -> io::Result<()> {
    let (filled, rest) = lent::parts(out, size);
    data(writer, filled)?;
    clean(writer, rest)
}

// The numbers at the start of a table, and whether all behind them are zero.
pub fn table(writer: &mut impl Write, table: &[u32], size: usize) -> io::Result<()> {
    let (filled, rest) = lent::parts(table, size);
    write!(writer, " table")?;
    for number in filled {
        write!(writer, " {number}")?;
    }
    clean(writer, rest)
}

// The bytes with '$' for LF and '%' for CR, or the checksum of many.
pub fn text(writer: &mut impl Write, bytes: &[u8]) -> io::Result<()> {
    if SHORT_TEXT < bytes.len() {
        return checksum(writer, bytes);
    }
    write!(writer, " text=")?;
    for c in bytes {
        let shown = match *c {
            b'\n' => b'$',
            b'\r' => b'%',
            c => c,
        };
        writer.write_all(&[shown])?;
    }
    Ok(())
}

// Name, style and room; what the write call answers; the text, and whether all behind it is zero.
pub fn written(
    writer: &mut impl Write,
    name: &[u8],
    style: u32,
    out: &[u8],
    answer: Answer,
) -> io::Result<()> {
    let (filled, rest) = lent::parts(out, answer.filled());
    self::name(writer, name)?;
    write!(writer, " write")?;
    asked(writer, style, LineEnding::from_number(style))?;
    write!(writer, " {} {answer}", out.len())?;
    text(writer, filled)?;
    clean(writer, rest)?;
    writeln!(writer)
}
