// The lines that the program prints, written to the writer that comes first.
use index::ENTRY_NUMBERS;
use std::fmt::Display;
use std::io;
use std::io::Write;

// Start, length, label and data size of the message of an entry.
fn message(writer: &mut impl Write, text: &[u8], entry: &[u32]) -> io::Result<()> {
    let [start, length, at, label_length, size, _] = *entry else {
        return Ok(());
    };
    let at = at as usize;
    let label = text.get(at..at + label_length as usize).unwrap_or(&[]);
    write!(writer, "{start} {length} ")?;
    writer.write_all(label)?;
    writeln!(writer, " {size}")
}

pub fn messages(writer: &mut impl Write, text: &[u8], numbers: &[u32]) -> io::Result<()> {
    let Some((count, entries)) = numbers.split_first() else {
        return Ok(());
    };
    for entry in entries.chunks(ENTRY_NUMBERS).take(*count as usize) {
        message(writer, text, entry)?;
    }
    Ok(())
}

pub fn refusal(writer: &mut impl Write, number: u32, place: impl Display + Drop) -> io::Result<()> {
    writeln!(writer, "{number} {place}")
}
