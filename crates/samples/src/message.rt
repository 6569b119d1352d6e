// The read call and the label call on one text, and the line that shows their answers.
use crate::{Case, TEXT_SIZE, call};
use std::io;
use std::io::Write;
use support::{lent, print};

// Grammar and room; what the read call answers; the data, and whether all behind it is zero.
fn read(writer: &mut impl Write, case: Case, grammar: u32) -> io::Result<()> {
    let mut space = [0; TEXT_SIZE];
    let out = lent::first(&mut space, case.room);
    let answer = call::read(case.text, grammar, out);
    print::lent(writer, grammar, out.len())?;
    write!(writer, " read {answer}")?;
    print::output(writer, out, answer.filled())
}

// What the label call answers, and the part of the text that the reader hands back.
fn label(writer: &mut impl Write, text: &[u8], grammar: u32) -> io::Result<()> {
    write!(writer, " label {}", call::label(text, grammar))?;
    print::text(writer, reader::label(text, grammar))
}

pub fn line(writer: &mut impl Write, case: Case, grammar: u32) -> io::Result<()> {
    print::name(writer, case.name)?;
    read(writer, case, grammar)?;
    label(writer, case.text, grammar)?;
    writeln!(writer)
}
