// The machine that reads RFC 7468 text of one of the three grammars, a byte at a time: its kinds of byte and its phases. Where
// each byte takes it stands in proofs/, as definitions, and so does the proof that it accepts exactly the texts of the grammars'
// relations. The crates `transitions` and `engine` have its code.
#![tactic(auto)]

// The kinds of byte that the grammars tell apart.
#[derive(Clone, Copy, Debug, PartialEq, Eq, Hash)]
pub enum Kind {
    Tab,
    Space,
    Cr,
    Lf,
    // VT or FF.
    Feed,
    Hyphen,
    Alphabet,
    Pad,
    // Another character of labels.
    Mark,
    Other,
}

// The opening or the closing boundary.
#[derive(Clone, Copy, Debug, PartialEq, Eq, Hash)]
pub enum Boundary {
    Opening,
    Closing,
}

// What has been read of a label and of the five hyphens behind it.
#[derive(Clone, Copy, Debug, PartialEq, Eq, Hash)]
pub enum LabelPhase {
    // Nothing.
    Start,
    // A character last.
    Char,
    // A character and a space.
    Space,
    // A character and a hyphen, which is the label's or the first of the five.
    Hyphen,
    // So many of the five hyphens.
    One,
    Two,
    Three,
    Four,
}

// What has been read of a lax message behind its opening.
#[derive(Clone, Copy, Debug, PartialEq, Eq, Hash)]
pub enum LaxPhase {
    // White and alphabet characters.
    Data,
    // A pad, and white.
    OnePad,
    // Two pads, and white.
    TwoPads,
    // The closing, and white.
    Closed,
}

// What has been read of a standard message behind its opening.
#[derive(Clone, Copy, Debug, PartialEq, Eq, Hash)]
pub enum StandardPhase {
    // Blanks.
    Opened,
    // The opening's line end, then blanks and line ends, the last of them a blank or the opening's own line end.
    Leading,
    // The same, but a further line end last: it may be that of an empty final line.
    BlankLine,
    // Alphabet characters of a line.
    Data,
    // Alphabet characters of a line, then blanks.
    Trailing,
    // A line of alphabet characters with its line end: it may be the final line.
    Line,
    // The first pad.
    OnePad,
    // The first pad, then blanks.
    PadTrailing,
    // The first pad, with its line end: it may be that of the final line.
    PadLine,
    // Both pads, or blanks of the final line.
    Ending,
    // The final line.
    Final,
    // The closing, and blanks.
    Closed,
    // The line end behind the closing.
    Ended,
}

// What has been read of a strict message behind its opening.
#[derive(Clone, Copy, Debug, PartialEq, Eq, Hash)]
pub enum StrictPhase {
    // Nothing.
    Opened,
    // The opening's line end.
    First,
    // A line of 64 characters with its line end: it may be the final line.
    Line,
    // One or more characters of a line, which has room for so many more.
    Data(u8),
    // The first of two pads.
    OnePad,
    // The last pad.
    Padded,
    // The final line.
    Final,
    // The closing.
    Closed,
    // The line end behind the closing.
    Ended,
}

// What has been read of a message.
#[derive(Clone, Copy, Debug, PartialEq, Eq, Hash)]
pub enum Phase {
    // White before the opening, under lax.
    Before,
    // So many bytes of "-----BEGIN " or "-----END ".
    Word(Boundary, u8),
    Label(Boundary, LabelPhase),
    Lax(LaxPhase),
    Standard(StandardPhase),
    Strict(StrictPhase),
    // What no text of the grammar starts with.
    Dead,
}

// The machine between two bytes.
#[derive(Clone, Copy, Debug, PartialEq, Eq, Hash)]
pub struct State {
    pub phase: Phase,
    // CR was read last.
    pub cr: bool,
}

// The part of a message that the bytes read last belong to.
#[derive(Clone, Copy, Debug, PartialEq, Eq, Hash)]
pub enum Part {
    Before,
    Opening,
    Body,
    Closing,
    After,
}

// Where a label goes on. Of three cases, since the two ways on are as unlike as either is to a refusal: an Option round two of them
// would nest what the tables lay out flat.
#[derive(Clone, Copy, Debug, PartialEq, Eq, Hash)]
pub enum LabelTarget {
    To(LabelPhase),
    // Its fifth hyphen has been read.
    Whole,
    Refused,
}

// Where a label goes on from one phase, by the kind of the next byte.
#[derive(Clone, Copy, Debug, PartialEq, Eq, Hash)]
pub struct LabelRow {
    pub hyphen: LabelTarget,
    pub space: LabelTarget,
    pub char: LabelTarget,
}

// Where the machine goes from one phase behind the opening, by the kind of the next byte.
#[derive(Clone, Copy, Debug, PartialEq, Eq, Hash)]
pub struct Row {
    pub blank: Phase,
    pub feed: Phase,
    pub end: Phase,
    pub alphabet: Phase,
    pub pad: Phase,
    pub hyphen: Phase,
}
