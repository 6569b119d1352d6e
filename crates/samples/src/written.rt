// The write call on one label, data and style, and the lines that show its answer and what is read of the text.
use crate::form::{Form, WriteMode};
use crate::{Case, TEXT_SIZE, call, each_grammar, made, message};
use grammar::Grammar;
use std::io;
use std::io::Write;
use support::bytes::Bytes;
use support::{expand, fields, lent, print};

// What the write call is given, and under which name it is shown.
#[derive(Clone, Copy)]
struct Parts<'a> {
    name: &'a [u8],
    label: &'a [u8],
    data: &'a [u8],
    style: u32,
    room: usize,
}

// The line of what is written. The text is handed back.
fn write<'a>(writer: &mut impl Write, parts: Parts, space: &'a mut [u8]) -> io::Result<&'a [u8]> {
    let out = lent::first(space, parts.room);
    let answer = call::write(parts.label, parts.data, parts.style, out);
    print::written(writer, parts.name, parts.style, out, answer)?;
    let (text, _) = lent::parts(out, answer.filled());
    Ok(text)
}

fn write_only(writer: &mut impl Write, parts: Parts) -> io::Result<()> {
    let mut space = [0; TEXT_SIZE];
    write(writer, parts, &mut space)?;
    Ok(())
}

// The line of what is written, and then those of what is read, into as much room: a text is longer than its data.
fn write_back(writer: &mut impl Write, parts: Parts) -> io::Result<()> {
    let mut space = [0; TEXT_SIZE];
    let text = write(writer, parts, &mut space)?;
    let case = Case {
        name: parts.name,
        text,
        room: parts.room,
    };
    each_grammar(|grammar| message::line(writer, case, grammar))
}

// Label and data of a text, written again in the style that was found.
fn restore(writer: &mut impl Write, name: &[u8], text: &[u8], room: usize) -> io::Result<()> {
    let mut space = [0; TEXT_SIZE];
    let answer = call::read(text, Grammar::STRICT, &mut space);
    let (data, _) = lent::parts(&space, answer.filled());
    let parts = Parts {
        name,
        label: reader::label(text, Grammar::STRICT),
        data,
        style: answer.style(),
        room,
    };
    write_back(writer, parts)
}

// `head` is the label or the text.
fn run(
    writer: &mut impl Write,
    form: Form,
    mode: WriteMode,
    head: &[u8],
    data: &[u8],
) -> io::Result<()> {
    let parts = Parts {
        name: form.name,
        label: head,
        data,
        style: fields::number(fields::field(form.rest, 1)),
        room: form.room,
    };
    match mode {
        WriteMode::Write => write_only(writer, parts),
        WriteMode::WriteBack => write_back(writer, parts),
        WriteMode::Restore => restore(writer, form.name, head, form.room),
    }
}

// A sample of the write call: length, style, label or text, and what is spelled out of the data.
pub fn sample(writer: &mut impl Write, form: Form, mode: WriteMode) -> io::Result<()> {
    let mut head_space = [0; TEXT_SIZE];
    let mut head = Bytes::new(&mut head_space);
    expand::expand(fields::field(form.rest, 2), form.count, &mut head);
    let mut data_space = [0; TEXT_SIZE];
    let mut data = Bytes::new(&mut data_space);
    expand::expand(fields::rest(form.rest, 3), form.count, &mut data);
    let length = fields::number(fields::field(form.rest, 0));
    made::make(&mut data, length as usize);
    run(writer, form, mode, head.into_slice(), data.into_slice())
}
