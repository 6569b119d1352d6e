// What writing one message means: the answers, and what is written. The definitions stand in specs/; specs/Meaning says in the
// grammars' relations what a caller gets, and proofs/ that the definitions mean just that, and that reading and writing undo one
// another. The crate `writer` has the code.
#![tactic(auto)]

ghost use Rattle.std.specs.Prelude.{◌≡◌};
ghost use Rattle.writing.specs.Answers.{refusal_number};

use grammar::LineEnding;
use output::CallError;

// How many bytes a text has or needs.
#[derive(Clone, Copy, Debug, PartialEq, Eq)]
pub struct TextSize(pub usize);

// The refusals 11 to 14 and 20 of the requirements, in their order. Their place is always 0.
#[derive(Clone, Copy, Debug, PartialEq, Eq)]
pub enum WriteRefusal {
    LabelTooLong,
    NotALabel,
    NoData,
    DataTooLong,
    UnknownStyle,
}

impl WriteRefusal {
    // The requirements' number of the refusal.
    pub fn number(self) -> u32
        ensures { result ≡ refusal_number self }
    {
        match self {
            WriteRefusal::LabelTooLong => 11,
            WriteRefusal::NotALabel => 12,
            WriteRefusal::NoData => 13,
            WriteRefusal::DataTooLong => 14,
            WriteRefusal::UnknownStyle => 20,
        }
    }
}

// A label, data and a style that pass the checks 11 to 14 and 20: the line ends, and how many bytes the text has.
#[derive(Clone, Copy, Debug, PartialEq, Eq)]
pub struct Taken {
    pub ending: LineEnding,
    pub size: TextSize,
}

// The answer of `write`. `Ok` is 0: the output holds the text, and then zeros. `Refused` is 11 to 14 or 20 and `TooSmall` 10, with the
// size that the text needs: the output is zeros.
pub type WriteAnswer = Result<TextSize, CallError<WriteRefusal, TextSize>>;
