// The machine's code, but for its tables: each function equals its definition in the crate `machine`.
#![tactic(auto)]

ghost use Rattle.std.specs.Prelude.{◌≡◌, length, get_or};
ghost use Rattle.machine.proofs.ByteKinds.{kind_of, other_kind};
ghost use Rattle.machine.proofs.Machine.{word_of, word_step, label_target, label_step, target, behind, labelled, before_step, next, step, start, later, accepting, strict_accepting, is_after, dead, byte_part, boundary_part, lax_part, standard_part, strict_part, part_of};

use base_64::{DecodeTable, PAD};
use grammar::{BEGIN, CR, END, FF, FIRST_MARK, Grammar, HT, HYPHEN, LAST_MARK, LF, SP, VT};
use machine::{
    Boundary, Kind, LabelPhase, LabelRow, LabelTarget, LaxPhase, Part, Phase, Row, StandardPhase,
    State, StrictPhase,
};

// The kind of a byte that is no blank, line end, VT, FF, hyphen or pad.
fn other_kind(values: &DecodeTable, b: u8) -> Kind
    ensures { result ≡ other_kind b }
{
    match b {
        _ if values.is_character(b) => Kind::Alphabet,
        FIRST_MARK..=LAST_MARK => Kind::Mark,
        _ => Kind::Other,
    }
}

// The kind of a byte.
pub fn kind_of(values: &DecodeTable, b: u8) -> Kind
    ensures { result ≡ kind_of b }
{
    match b {
        HT => Kind::Tab,
        LF => Kind::Lf,
        VT | FF => Kind::Feed,
        CR => Kind::Cr,
        SP => Kind::Space,
        HYPHEN => Kind::Hyphen,
        PAD => Kind::Pad,
        _ => other_kind(values, b),
    }
}

// What stands before the label of a boundary: "-----BEGIN " or "-----END ".
pub fn word(boundary: Boundary) -> &'static [u8]
    ensures { result.now ≡ word_of boundary }
{
    match boundary {
        Boundary::Opening => &BEGIN,
        Boundary::Closing => &END,
    }
}

// A byte behind so many of "-----BEGIN " or "-----END ".
fn word_step(boundary: Boundary, read: u8, b: u8) -> Phase
    ensures { result ≡ word_step boundary read b }
{
    match word(boundary).get(usize::from(read)..) {
        Some([expected]) if *expected == b => Phase::Label(boundary, LabelPhase::Start),
        Some([expected, ..]) if *expected == b => Phase::Word(boundary, read + 1),
        _ => Phase::Dead,
    }
}

// The way on that a kind of byte takes.
fn label_target(row: LabelRow, kind: Kind) -> LabelTarget
    ensures { result ≡ label_target row kind }
{
    match kind {
        Kind::Hyphen => row.hyphen,
        Kind::Space => row.space,
        Kind::Alphabet | Kind::Pad | Kind::Mark => row.char,
        Kind::Tab | Kind::Cr | Kind::Lf | Kind::Feed | Kind::Other => LabelTarget::Refused,
    }
}

// Where a byte takes a label. The writer's test of a label goes by it too.
pub fn label_step(values: &DecodeTable, phase: LabelPhase, b: u8) -> LabelTarget
    ensures { result ≡ label_step phase b }
{
    label_target(transitions::label_row(phase), kind_of(values, b))
}

// The phase right behind a boundary.
pub fn behind_boundary(grammar: Grammar, boundary: Boundary) -> Phase
    ensures { result ≡ behind grammar boundary }
{
    match (grammar, boundary) {
        (Grammar::Lax, Boundary::Opening) => Phase::Lax(LaxPhase::Data),
        (Grammar::Standard, Boundary::Opening) => Phase::Standard(StandardPhase::Opened),
        (Grammar::Strict, Boundary::Opening) => Phase::Strict(StrictPhase::Opened),
        (Grammar::Lax, Boundary::Closing) => Phase::Lax(LaxPhase::Closed),
        (Grammar::Standard, Boundary::Closing) => Phase::Standard(StandardPhase::Closed),
        (Grammar::Strict, Boundary::Closing) => Phase::Strict(StrictPhase::Closed),
    }
}

// The phase that a label goes on to.
fn label_phase(grammar: Grammar, boundary: Boundary, to: LabelTarget) -> Phase
    ensures { result ≡ labelled grammar boundary to }
{
    match to {
        LabelTarget::To(phase) => Phase::Label(boundary, phase),
        LabelTarget::Whole => behind_boundary(grammar, boundary),
        LabelTarget::Refused => Phase::Dead,
    }
}

// The way on that a kind of byte takes.
fn row_target(row: Row, kind: Kind) -> Phase
    ensures { result ≡ target row kind }
{
    match kind {
        Kind::Tab | Kind::Space => row.blank,
        Kind::Cr | Kind::Lf => row.end,
        Kind::Feed => row.feed,
        Kind::Hyphen => row.hyphen,
        Kind::Alphabet => row.alphabet,
        Kind::Pad => row.pad,
        Kind::Mark | Kind::Other => Phase::Dead,
    }
}

// Before the opening, under lax.
fn before_step(kind: Kind) -> Phase
    ensures { result ≡ before_step kind }
{
    match kind {
        Kind::Tab | Kind::Space | Kind::Cr | Kind::Lf | Kind::Feed => Phase::Before,
        Kind::Hyphen => Phase::Word(Boundary::Opening, 1),
        Kind::Alphabet | Kind::Pad | Kind::Mark | Kind::Other => Phase::Dead,
    }
}

// The phase behind the next byte.
fn next_phase(values: &DecodeTable, grammar: Grammar, phase: Phase, b: u8) -> Phase
    ensures { result ≡ next grammar phase b }
{
    match phase {
        Phase::Before => before_step(kind_of(values, b)),
        Phase::Word(boundary, read) => word_step(boundary, read, b),
        Phase::Label(boundary, label) => label_phase(
            grammar,
            boundary,
            label_step(values, label, b),
        ),
        Phase::Lax(lax) => row_target(transitions::lax_row(lax), kind_of(values, b)),
        Phase::Standard(standard) => row_target(
            transitions::standard_row(standard),
            kind_of(values, b),
        ),
        Phase::Strict(strict) => row_target(transitions::strict_row(strict), kind_of(values, b)),
        Phase::Dead => Phase::Dead,
    }
}

// Where a message starts, the first of a bundle or a single one.
pub fn start(grammar: Grammar) -> State
    ensures { result ≡ start grammar }
{
    match grammar {
        Grammar::Lax => State {
            phase: Phase::Before,
            cr: false,
        },
        Grammar::Standard | Grammar::Strict => later(),
    }
}

// Where a later message of a bundle starts.
pub fn later() -> State
    ensures { result ≡ later }
{
    State {
        phase: Phase::Word(Boundary::Opening, 0),
        cr: false,
    }
}

// The machine behind the next byte. LF behind CR is of the same line end and moves nothing.
pub fn step(values: &DecodeTable, state: State, grammar: Grammar, b: u8) -> State
    ensures { result ≡ step grammar state b }
{
    if state.cr && b == LF {
        return State { cr: false, ..state };
    }
    State {
        phase: next_phase(values, grammar, state.phase, b),
        cr: b == CR,
    }
}

// The part that a boundary is.
fn boundary_part(boundary: Boundary) -> Part
    ensures { result ≡ boundary_part boundary }
{
    match boundary {
        Boundary::Opening => Part::Opening,
        Boundary::Closing => Part::Closing,
    }
}

fn lax_part(phase: LaxPhase) -> Part
    ensures { result ≡ lax_part phase }
{
    match phase {
        LaxPhase::Closed => Part::After,
        _ => Part::Body,
    }
}

fn standard_part(phase: StandardPhase) -> Part
    ensures { result ≡ standard_part phase }
{
    match phase {
        StandardPhase::Closed | StandardPhase::Ended => Part::After,
        _ => Part::Body,
    }
}

fn strict_part(phase: StrictPhase) -> Part
    ensures { result ≡ strict_part phase }
{
    match phase {
        StrictPhase::Closed | StrictPhase::Ended => Part::After,
        _ => Part::Body,
    }
}

// The part of a message that a phase is in; a dead phase is in none, and counts as behind the message.
pub fn part_of(phase: Phase) -> Part
    ensures { result ≡ part_of phase }
{
    match phase {
        Phase::Before => Part::Before,
        Phase::Word(boundary, _) | Phase::Label(boundary, _) => boundary_part(boundary),
        Phase::Lax(lax) => lax_part(lax),
        Phase::Standard(standard) => standard_part(standard),
        Phase::Strict(strict) => strict_part(strict),
        Phase::Dead => Part::After,
    }
}

// Whether no text of the grammar starts with what has been read.
pub fn is_dead(phase: Phase) -> bool
    ensures { result ≡ dead phase }
{
    matches!(phase, Phase::Dead)
}

// Whether what has been read is a text of the grammar. A strict one has to end in a line end.
pub fn is_accepting(phase: Phase) -> bool
    ensures { result ≡ accepting phase }
{
    match phase {
        Phase::Lax(lax) => lax_part(lax) == Part::After,
        Phase::Standard(standard) => standard_part(standard) == Part::After,
        Phase::Strict(strict) => strict == StrictPhase::Ended,
        _ => false,
    }
}

// The part that a byte belongs to, which took the machine from one part to another: the first hyphen of a boundary is the
// boundary's, and so is its last.
pub fn byte_part(from: Part, to: Part) -> Part
    ensures { result ≡ byte_part from to }
{
    match (from, to) {
        (Part::Before, Part::Before) => Part::Before,
        (Part::Before | Part::Opening, _) => Part::Opening,
        (Part::Body, Part::Body) => Part::Body,
        (Part::Body | Part::Closing, _) => Part::Closing,
        (Part::After, _) => Part::After,
    }
}
