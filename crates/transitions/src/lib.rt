// The machine's transition tables: for each phase the ways on, by kinds of byte. Each function equals its definition in the crate
// `machine`, and the tables are laid out as there.
#![tactic(auto)]

ghost use Rattle.std.specs.Prelude.{◌≡◌};
ghost use Rattle.machine.proofs.Machine.{label_ways, label_row, line_end, line_char, line_pad, row, lax_row, standard_row, strict_row};

use grammar::LINE_CHARS;
use machine::{
    Boundary, LabelPhase, LabelRow, LabelTarget, LaxPhase, Phase, Row, StandardPhase, StrictPhase,
};

// How many characters a strict line has room for behind its first.
const LINE_ROOM: u8 = (LINE_CHARS - 1) as u8;

// The ways on from a phase of a label.
fn label_ways(hyphen: LabelTarget, space: LabelTarget, char: LabelTarget) -> LabelRow
    ensures { result ≡ label_ways hyphen space char }
{
    LabelRow {
        hyphen,
        space,
        char,
    }
}

// The ways on in a label: by a hyphen, a space, another character.
pub fn label_row(phase: LabelPhase) -> LabelRow
    ensures { result ≡ label_row phase }
{
    let refused = LabelTarget::Refused;
    let char = LabelTarget::To(LabelPhase::Char);
    let space = LabelTarget::To(LabelPhase::Space);
    let hyphen = LabelTarget::To(LabelPhase::Hyphen);
    let one = LabelTarget::To(LabelPhase::One);
    let two = LabelTarget::To(LabelPhase::Two);
    let three = LabelTarget::To(LabelPhase::Three);
    let four = LabelTarget::To(LabelPhase::Four);
    match phase {
        LabelPhase::Start => label_ways(one, refused, char),
        LabelPhase::Char => label_ways(hyphen, space, char),
        LabelPhase::Space => label_ways(refused, refused, char),
        LabelPhase::Hyphen => label_ways(two, refused, char),
        LabelPhase::One => label_ways(two, refused, refused),
        LabelPhase::Two => label_ways(three, refused, refused),
        LabelPhase::Three => label_ways(four, refused, refused),
        LabelPhase::Four => label_ways(LabelTarget::Whole, refused, refused),
    }
}

// A line end behind characters of a strict line that has room for so many more: that of a full line, or of the final line
// where the last group is whole.
fn line_end(room: u8) -> Phase
    ensures { result ≡ line_end room }
{
    match room {
        0 => Phase::Strict(StrictPhase::Line),
        _ if room % 4 == 0 => Phase::Strict(StrictPhase::Final),
        _ => Phase::Dead,
    }
}

// A character more.
fn line_char(room: u8) -> Phase
    ensures { result ≡ line_char room }
{
    match room.checked_sub(1) {
        Some(left) => Phase::Strict(StrictPhase::Data(left)),
        None => Phase::Dead,
    }
}

// A pad behind three or two characters of a group.
fn line_pad(room: u8) -> Phase
    ensures { result ≡ line_pad room }
{
    match room % 4 {
        1 => Phase::Strict(StrictPhase::Padded),
        2 => Phase::Strict(StrictPhase::OnePad),
        _ => Phase::Dead,
    }
}

// The ways on from a phase.
fn ways(blank: Phase, feed: Phase, end: Phase, alphabet: Phase, pad: Phase, hyphen: Phase) -> Row
    ensures { result ≡ row blank feed end alphabet pad hyphen }
{
    Row {
        blank,
        feed,
        end,
        alphabet,
        pad,
        hyphen,
    }
}

// The ways on under lax: by a blank, VT or FF, a line end, an alphabet character, a pad, a hyphen.
pub fn lax_row(phase: LaxPhase) -> Row
    ensures { result ≡ lax_row phase }
{
    let dead = Phase::Dead;
    let closing = Phase::Word(Boundary::Closing, 1);
    let data = Phase::Lax(LaxPhase::Data);
    let one_pad = Phase::Lax(LaxPhase::OnePad);
    let two_pads = Phase::Lax(LaxPhase::TwoPads);
    let closed = Phase::Lax(LaxPhase::Closed);
    match phase {
        LaxPhase::Data => ways(data, data, data, data, one_pad, closing),
        LaxPhase::OnePad => ways(one_pad, one_pad, one_pad, dead, two_pads, closing),
        LaxPhase::TwoPads => ways(two_pads, two_pads, two_pads, dead, dead, closing),
        LaxPhase::Closed => ways(closed, closed, closed, dead, dead, dead),
    }
}

// The ways on under standard: by a blank, VT or FF, a line end, an alphabet character, a pad, a hyphen.
pub fn standard_row(phase: StandardPhase) -> Row
    ensures { result ≡ standard_row phase }
{
    let dead = Phase::Dead;
    let closing = Phase::Word(Boundary::Closing, 1);
    let opened = Phase::Standard(StandardPhase::Opened);
    let leading = Phase::Standard(StandardPhase::Leading);
    let blank_line = Phase::Standard(StandardPhase::BlankLine);
    let data = Phase::Standard(StandardPhase::Data);
    let one_pad = Phase::Standard(StandardPhase::OnePad);
    let pad_trailing = Phase::Standard(StandardPhase::PadTrailing);
    let pad_line = Phase::Standard(StandardPhase::PadLine);
    let trailing = Phase::Standard(StandardPhase::Trailing);
    let line = Phase::Standard(StandardPhase::Line);
    let ending = Phase::Standard(StandardPhase::Ending);
    let final_line = Phase::Standard(StandardPhase::Final);
    let closed = Phase::Standard(StandardPhase::Closed);
    let ended = Phase::Standard(StandardPhase::Ended);
    match phase {
        StandardPhase::Opened => ways(opened, dead, leading, dead, dead, dead),
        StandardPhase::Leading => ways(leading, dead, blank_line, data, one_pad, dead),
        StandardPhase::BlankLine => ways(leading, dead, blank_line, data, one_pad, closing),
        StandardPhase::Data => ways(trailing, dead, line, data, one_pad, dead),
        StandardPhase::Trailing => ways(trailing, dead, line, dead, dead, dead),
        StandardPhase::Line => ways(ending, dead, final_line, data, one_pad, closing),
        StandardPhase::OnePad => ways(pad_trailing, dead, pad_line, dead, ending, dead),
        StandardPhase::PadTrailing => ways(pad_trailing, dead, pad_line, dead, dead, dead),
        StandardPhase::PadLine => ways(dead, dead, dead, dead, ending, closing),
        StandardPhase::Ending => ways(ending, dead, final_line, dead, dead, dead),
        StandardPhase::Final => ways(dead, dead, dead, dead, dead, closing),
        StandardPhase::Closed => ways(closed, dead, ended, dead, dead, dead),
        StandardPhase::Ended => ways(dead, dead, dead, dead, dead, dead),
    }
}

// The ways on under strict: by a blank, VT or FF, a line end, an alphabet character, a pad, a hyphen.
pub fn strict_row(phase: StrictPhase) -> Row
    ensures { result ≡ strict_row phase }
{
    let dead = Phase::Dead;
    let closing = Phase::Word(Boundary::Closing, 1);
    let first = Phase::Strict(StrictPhase::First);
    let padded = Phase::Strict(StrictPhase::Padded);
    let final_line = Phase::Strict(StrictPhase::Final);
    let ended = Phase::Strict(StrictPhase::Ended);
    let data = Phase::Strict(StrictPhase::Data(LINE_ROOM));
    match phase {
        StrictPhase::Opened => ways(dead, dead, first, dead, dead, dead),
        StrictPhase::First => ways(dead, dead, dead, data, dead, dead),
        StrictPhase::Line => ways(dead, dead, dead, data, dead, closing),
        StrictPhase::Data(room) => ways(
            dead,
            dead,
            line_end(room),
            line_char(room),
            line_pad(room),
            dead,
        ),
        StrictPhase::OnePad => ways(dead, dead, dead, dead, padded, dead),
        StrictPhase::Padded => ways(dead, dead, final_line, dead, dead, dead),
        StrictPhase::Final => ways(dead, dead, dead, dead, dead, closing),
        StrictPhase::Closed => ways(dead, dead, ended, dead, dead, dead),
        StrictPhase::Ended => ways(dead, dead, dead, dead, dead, dead),
    }
}
