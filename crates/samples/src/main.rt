// Runs the library's calls on the samples of standard input, and prints what they answer.
//
// A sample stands between '@' and the next '@'. It is a mode, a name, the room of the output or the table and a count, each with
// ':' behind it, and a text; or, for the write call, a length, a style and a label or a text with ':' behind each of them too, and
// data. A mode goes by its first letter:
//
//     each      the read call and the label call, a line for each grammar; the number of a grammar: a line for that alone
//     index     the index call, a line for each grammar; "table" and the number of a grammar: a line for that alone
//     starts    the same of every start of the text, behind a line with its length
//     write     label and data are written in the style
//     back      the same, and what was written is read under each grammar
//     restore   a text is read under strict, its label and data are written in the style that was found and not in the sample's,
//               and what was written is read under each grammar
//     #         a comment
//
// Label, text and data are in the printable form of `support::expand`, the count being that of their braces; behind the data stand
// as many made bytes as the length says.
//
// Each call is lent a buffer of its own. Buffers that were handed down would be followed through every function by the proofs,
// whose cost goes by what a function holds.
#![tactic(auto)]

mod bundle;
mod call;
mod form;
mod made;
mod message;
mod written;

use form::{Form, Mode, TextMode};
use grammar::Grammar;
use shell::input;
use std::io;
use std::io::Write;
use support::bytes::Bytes;
use support::expand;

// The most bytes of all samples that are read.
const FORMS_SIZE: usize = 131072;

// Room for the text, the label, the data or the output of a sample.
const TEXT_SIZE: usize = 65536;

// A text under a name, and the room that the calls on it are lent.
#[derive(Clone, Copy)]
struct Case<'a> {
    name: &'a [u8],
    text: &'a [u8],
    room: usize,
}

fn each_grammar<F: FnMut(u32) -> io::Result<()>>(mut line: F) -> io::Result<()>
    requires { F.IsAlwaysCallable line }
{
    for grammar in [Grammar::LAX, Grammar::STANDARD, Grammar::STRICT] {
        line(grammar)?;
    }
    Ok(())
}

fn run(writer: &mut impl Write, mode: TextMode, case: Case) -> io::Result<()> {
    match mode {
        TextMode::Read => each_grammar(|grammar| message::line(writer, case, grammar)),
        TextMode::ReadUnder(grammar) => message::line(writer, case, grammar),
        TextMode::Index => each_grammar(|grammar| bundle::line(writer, case, grammar)),
        TextMode::IndexUnder(grammar) => bundle::line(writer, case, grammar),
        TextMode::IndexStarts => bundle::starts(writer, case),
    }
}

fn text_sample(writer: &mut impl Write, form: Form, mode: TextMode) -> io::Result<()> {
    let mut space = [0; TEXT_SIZE];
    let mut text = Bytes::new(&mut space);
    expand::expand(form.rest, form.count, &mut text);
    let case = Case {
        name: form.name,
        text: text.into_slice(),
        room: form.room,
    };
    run(writer, mode, case)
}

fn sample(writer: &mut impl Write, form: Form) -> io::Result<()> {
    match form.mode {
        Mode::Comment => Ok(()),
        Mode::Text(mode) => text_sample(writer, form, mode),
        Mode::Write(mode) => written::sample(writer, form, mode),
    }
}

// The sample at the start of some bytes. The '@' of the next one belongs to its last field, of which that is a part only where it is
// the name.
fn first_sample(forms: &[u8]) -> &[u8] {
    match forms.iter().position(|c| *c == b'@') {
        Some(end) => &forms[..end + 1],
        None => forms,
    }
}

fn samples(writer: &mut impl Write, forms: &[u8]) -> io::Result<()> {
    for (i, c) in forms.iter().enumerate() {
        if *c == b'@' {
            sample(writer, Form::from(first_sample(&forms[i + 1..])))?;
        }
    }
    Ok(())
}

fn main(rt: HostRuntime) -> io::Result<()> {
    let mut space = [0; FORMS_SIZE];
    let forms = input::fill(&mut rt.stdin(), &mut space)?;
    samples(&mut io::writer(&rt), forms)
}
