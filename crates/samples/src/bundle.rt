// The index call on one text, and the line that shows its answer.
use crate::{Case, call, each_grammar};
use std::io;
use std::io::Write;
use support::{lent, print};

// Name, grammar and room; what the index call answers; the table, and whether all behind it is zero.
pub fn line(writer: &mut impl Write, case: Case, grammar: u32) -> io::Result<()> {
    let mut space = [0; lent::TABLE_SIZE];
    let numbers = lent::first(&mut space, case.room);
    let answer = call::index(case.text, grammar, numbers);
    print::name(writer, case.name)?;
    print::lent(writer, grammar, numbers.len())?;
    write!(writer, " index {answer}")?;
    print::table(writer, numbers, answer.filled())?;
    writeln!(writer)
}

// Every start of the text, from the empty one to the whole text: a line with its length, and those of the call.
pub fn starts(writer: &mut impl Write, case: Case) -> io::Result<()> {
    for count in 0..=case.text.len() {
        print::name(writer, case.name)?;
        writeln!(writer, " {count}")?;
        let text = &case.text[..count];
        let start = Case { text, ..case };
        each_grammar(|grammar| line(writer, start, grammar))?;
    }
    Ok(())
}
