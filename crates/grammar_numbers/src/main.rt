// Asks for grammars and line ends by number, for the numbers of styles, and for the places of labels behind boundaries.
#![tactic(auto)]

use grammar::{Grammar, LineEnding, LineStyle, TextOffset};
use std::fmt::Display;
use std::io;
use std::io::Write;

// A number, and what it asks for.
fn show(
    writer: &mut impl Write,
    number: u32,
    found: Option<impl Display + Drop>,
) -> io::Result<()> {
    match found {
        Some(found) => writeln!(writer, "{number} {found}"),
        None => writeln!(writer, "{number} unknown"),
    }
}

fn run(writer: &mut impl Write) -> io::Result<()> {
    for number in [
        0,
        Grammar::LAX,
        Grammar::STANDARD,
        Grammar::STRICT,
        4,
        257,
        u32::MAX,
    ] {
        show(writer, number, Grammar::from_number(number))?;
    }
    for number in [
        0,
        LineEnding::LF,
        LineEnding::CRLF,
        LineEnding::CR,
        4,
        257,
        u32::MAX,
    ] {
        show(writer, number, LineEnding::from_number(number))?;
    }
    let styles = [
        LineStyle::NoLineEnd,
        LineStyle::Only(LineEnding::Lf),
        LineStyle::Only(LineEnding::CrLf),
        LineStyle::Only(LineEnding::Cr),
        LineStyle::Mixed,
    ];
    for style in styles {
        writeln!(writer, "{}", style.number())?;
    }
    // The labels of the sample M, whose boundaries start at 0 and 23.
    writeln!(writer, "{}", TextOffset(0).opening_label())?;
    writeln!(writer, "{}", TextOffset(23).closing_label())
}

fn main(rt: HostRuntime) -> io::Result<()> {
    run(&mut io::writer(&rt))
}
