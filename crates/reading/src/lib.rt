// What reading one message means: the answers and what is counted on the way to them. The definitions stand in specs/;
// specs/Meaning says in the grammars' relations what a caller gets, and proofs/ that the definitions mean just that. The crate
// `reader` has the code.
#![tactic(auto)]

ghost use Rattle.std.specs.Prelude.{◌≡◌};
ghost use Rattle.reading.specs.Answers.{refusal_number, refusal_place};

use base_64::ByteCount;
use grammar::{Family, LineStyle, TextOffset};
use machine::Phase;
use output::CallError;

// The longest text and the longest label that are read, in bytes.
pub const TEXT_LIMIT: usize = 16777216;

pub const LABEL_LIMIT: usize = 64;

// What bytes hold of line ends: LF with no CR before it, LF behind CR, and CR, whatever follows it. LF behind CR makes one line end
// of the two, so that `cr - crlf` of them are CR alone; no count depends on a byte that is still to come.
#[derive(Clone, Copy, Debug, PartialEq, Eq)]
pub struct EndCounts {
    pub lf: usize,
    pub crlf: usize,
    pub cr: usize,
}

// How many bytes of a message each part has, and of its body how many alphabet characters, how many pads, and how many bytes
// before its last alphabet character. The line ends are those of all its parts.
#[derive(Clone, Copy, Debug, PartialEq, Eq)]
pub struct Tally {
    pub before: usize,
    pub opening: usize,
    pub body: usize,
    pub closing: usize,
    pub characters: usize,
    pub pads: usize,
    pub last: usize,
    pub ends: EndCounts,
}

// A text, read from an offset to the first byte that no text of the grammar could have there, or to its end: the last phase,
// how many bytes were read, and what they were.
#[derive(Clone, Copy, Debug, PartialEq, Eq)]
pub struct Scan {
    pub phase: Phase,
    pub length: usize,
    pub tally: Tally,
}

// A part of a text: where it starts, and how many bytes of the text it has.
#[derive(Clone, Copy, Debug, PartialEq, Eq)]
pub struct Span {
    pub at: TextOffset,
    pub length: usize,
}

// Where the parts of a message are: the opening's label, the body, the first hyphen of the closing, and the closing's label.
#[derive(Clone, Copy, Debug, PartialEq, Eq)]
pub struct Layout {
    pub opened: Span,
    pub body: Span,
    pub closing: TextOffset,
    pub closed: Span,
}

// The refusals 1 to 9 of the requirements, in their order, with their places.
#[derive(Clone, Copy, Debug, PartialEq, Eq)]
pub enum Refusal {
    UnknownGrammar,
    TextTooLong,
    BadOpening(TextOffset),
    BadBody(TextOffset),
    BadClosing(TextOffset),
    LabelTooLong(TextOffset),
    LabelsDiffer(TextOffset),
    BadCounts(TextOffset),
    SpareBits(TextOffset),
}

impl Refusal {
    // Its number in the requirements.
    pub fn number(self) -> u32
        ensures { result ≡ refusal_number self }
    {
        match self {
            Refusal::UnknownGrammar => 1,
            Refusal::TextTooLong => 2,
            Refusal::BadOpening(_) => 3,
            Refusal::BadBody(_) => 4,
            Refusal::BadClosing(_) => 5,
            Refusal::LabelTooLong(_) => 6,
            Refusal::LabelsDiffer(_) => 7,
            Refusal::BadCounts(_) => 8,
            Refusal::SpareBits(_) => 9,
        }
    }

    // Its place in the text: zero where it has none.
    pub fn place(self) -> TextOffset
        ensures { result.0 ≡ refusal_place self }
    {
        match self {
            Refusal::UnknownGrammar | Refusal::TextTooLong => TextOffset(0),
            Refusal::BadOpening(place)
            | Refusal::BadBody(place)
            | Refusal::BadClosing(place)
            | Refusal::LabelTooLong(place)
            | Refusal::LabelsDiffer(place)
            | Refusal::BadCounts(place)
            | Refusal::SpareBits(place) => place,
        }
    }
}

// What is reported of a message: how many bytes its data has, where its label is, and the label's family, if it is in one.
#[derive(Clone, Copy, Debug, PartialEq, Eq)]
pub struct Found {
    pub size: ByteCount,
    pub label: Span,
    pub family: Option<Family>,
}

// A message that passed the checks 6 to 9: where its parts are, what is reported of it, and its line ends.
#[derive(Clone, Copy, Debug, PartialEq, Eq)]
pub struct Sound {
    pub layout: Layout,
    pub found: Found,
    pub style: LineStyle,
}

// What is answered of a text that was read: what is reported of its message, and the line ends of the whole text.
#[derive(Clone, Copy, Debug, PartialEq, Eq)]
pub struct Accepted {
    pub found: Found,
    pub style: LineStyle,
}

// The outcome of checks: a message that passed them, or the first refusal.
pub type Judgement = Result<Sound, Refusal>;

// The answer of `read`, by its number.
//   0: the output holds the data, and then zeros.
//   1 to 9: the output is zeros.
//   10: the output is zeros; the size is what the data needs.
pub type ReadAnswer = Result<Accepted, CallError<Refusal, Found>>;
