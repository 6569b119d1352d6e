// What is lent to a call holds no zero before it, so that what the call leaves as it was shows.
use std::fmt;

// Each byte of an output, each number of a table and each number of a report before a call.
pub const STALE_BYTE: u8 = u8::MAX;

pub const STALE_NUMBER: u32 = u32::MAX;

const UNSET: u64 = u64::MAX;

// 1 + 6 * 2184 numbers: a text of 65,536 bytes has at most 2184 messages, each of 30 bytes or more.
pub const TABLE_SIZE: usize = 13105;

// The first items of a buffer, as many as there is room for.
pub fn first<T>(buffer: &mut [T], room: usize) -> &mut [T] {
    let count = room.min(buffer.len());
    &mut buffer[..count]
}

// What a call filled of a buffer, and what is behind it.
pub fn parts<T>(buffer: &[T], filled: usize) -> (&[T], &[T]) {
    buffer.split_at(filled.min(buffer.len()))
}

// What a call answered: its number, and the report that it filled.
#[derive(Clone, Copy, Debug, PartialEq, Eq)]
pub struct Answer {
    pub number: u32,
    pub report: [u64; 8],
}

impl Answer {
    // What a call answers that is lent a report.
    pub fn of<F: FnOnce(&mut [u64; 8]) -> u32>(call: F) -> Answer
        requires { F.IsAlwaysCallable call }
    {
        let mut report = [UNSET; 8];
        let number = call(&mut report);
        Answer { number, report }
    }

    // The place of a refusal.
    pub fn place(&self) -> u64 {
        let [_, place, ..] = self.report;
        place
    }

    // The style of line ends that a read call reported, as the write call takes it.
    pub fn style(&self) -> u32 {
        let [_, _, _, _, _, _, style, _] = self.report;
        u32::try_from(style).unwrap_or(u32::MAX)
    }

    // How many bytes of the output, or numbers of the table, the call has filled.
    pub fn filled(&self) -> usize {
        let [_, _, size, ..] = self.report;
        if self.number == 0 { size as usize } else { 0 }
    }
}

// The number and the report.
impl fmt::Display for Answer {
    fn fmt<W: fmt::Write>(&self, f: &mut fmt::Formatter<W>) -> fmt::Result {
        write!(f, "{}", self.number)?;
        for number in &self.report {
            write!(f, " {number}")?;
        }
        Ok(())
    }
}
