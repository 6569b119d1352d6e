// A sample as it stands in the input: its fields, and the mode that the first of them names.
use support::fields;

// What is done with a sample.
#[derive(Clone, Copy, Debug, PartialEq, Eq)]
pub enum Mode {
    Comment,
    Text(TextMode),
    Write(WriteMode),
}

// What is done with a text: under each grammar, or under the one of a number.
#[derive(Clone, Copy, Debug, PartialEq, Eq)]
pub enum TextMode {
    Read,
    ReadUnder(u32),
    Index,
    IndexUnder(u32),
    IndexStarts,
}

// What is done with label and data, or with the text that they are taken from.
#[derive(Clone, Copy, Debug, PartialEq, Eq)]
pub enum WriteMode {
    Write,
    WriteBack,
    Restore,
}

// A mode goes by its first letter.
impl From<&[u8]> for Mode {
    fn from(field: &[u8]) -> Mode {
        let number = fields::number(field);
        match field.first() {
            Some(b'#') => Mode::Comment,
            Some(b'e') => Mode::Text(TextMode::Read),
            Some(b'i') => Mode::Text(TextMode::Index),
            Some(b't') => Mode::Text(TextMode::IndexUnder(number)),
            Some(b's') => Mode::Text(TextMode::IndexStarts),
            Some(b'w') => Mode::Write(WriteMode::Write),
            Some(b'b') => Mode::Write(WriteMode::WriteBack),
            Some(b'r') => Mode::Write(WriteMode::Restore),
            _ => Mode::Text(TextMode::ReadUnder(number)),
        }
    }
}

// What every sample has; `rest` is the text, or what the write call is given, in the printable form.
#[derive(Clone, Copy)]
pub struct Form<'a> {
    pub mode: Mode,
    pub name: &'a [u8],
    pub room: usize,
    pub count: u32,
    pub rest: &'a [u8],
}

impl<'a> From<&'a [u8]> for Form<'a> {
    fn from(sample: &'a [u8]) -> Form<'a> {
        Form {
            mode: Mode::from(fields::field(sample, 0)),
            name: fields::field(sample, 1),
            room: fields::number(fields::field(sample, 2)) as usize,
            count: fields::number(fields::field(sample, 3)),
            rest: fields::rest(sample, 4),
        }
    }
}
