// What may be passed at once from a phase of the machine, and the phase behind it: lines of a body, pads with their line end, the
// closing, and the line end of a boundary. It looks at no text.
#![tactic(auto)]

ghost use Rattle.std.specs.Prelude.{◌≡◌, true, IfSome};
ghost use Rattle.grammar.specs.Marks.{LF};
ghost use Rattle.grammar.specs.declared.Grammar.{Grammar};
ghost use Rattle.machine.proofs.Machine.{behind, next};
ghost use Rattle.leaps.specs.Phases.{LinesFrom, OnPads, Closes};

use grammar::Grammar;
use machine::{Boundary, LaxPhase, Phase, StandardPhase, StrictPhase};

// The phases in which lines of any length are read: within a line, behind a line end, behind a blank; and whether characters may
// stand behind a blank.
#[derive(Clone, Copy, Debug, PartialEq, Eq, Hash)]
pub struct LinePhases {
    pub within: Phase,
    pub behind: Phase,
    pub trailing: Phase,
    pub resumes: bool,
}

impl LinePhases {
    pub const LAX: LinePhases = LinePhases {
        within: Phase::Lax(LaxPhase::Data),
        behind: Phase::Lax(LaxPhase::Data),
        trailing: Phase::Lax(LaxPhase::Data),
        resumes: true,
    };

    pub const STANDARD: LinePhases = LinePhases {
        within: Phase::Standard(StandardPhase::Data),
        behind: Phase::Standard(StandardPhase::Line),
        trailing: Phase::Standard(StandardPhase::Trailing),
        resumes: false,
    };
}

// The grammar by which a line of the body begins in a phase, if one does.
pub fn body_line(phase: Phase) -> Option<Grammar>
    ensures { LinesFrom phase result }
{
    match phase {
        Phase::Lax(LaxPhase::Data) => Some(Grammar::Lax),
        Phase::Standard(StandardPhase::Leading | StandardPhase::BlankLine | StandardPhase::Line) =>
            { Some(Grammar::Standard) }
        Phase::Strict(StrictPhase::First) => Some(Grammar::Strict),
        Phase::Strict(StrictPhase::Line) => Some(Grammar::Strict),
        _ => None,
    }
}

// The phase behind one or two pads and a line end, where they may stand. Under strict the pads fill the last group of their line.
pub fn padded(phase: Phase, pads: usize) -> Option<Phase>
    ensures { IfSome result (λ next. (g : Grammar) → OnPads g phase pads next) }
{
    match (phase, pads) {
        (Phase::Lax(LaxPhase::Data), 1) => Some(Phase::Lax(LaxPhase::OnePad)),
        (Phase::Lax(LaxPhase::Data), 2) => Some(Phase::Lax(LaxPhase::TwoPads)),
        (Phase::Standard(StandardPhase::Data), 1) => Some(Phase::Standard(StandardPhase::PadLine)),
        (Phase::Standard(StandardPhase::Data), 2) => Some(Phase::Standard(StandardPhase::Final)),
        (Phase::Strict(StrictPhase::Data(room)), 1 | 2) if usize::from(room % 4) == pads => {
            Some(Phase::Strict(StrictPhase::Final))
        }
        _ => None,
    }
}

// Whether a hyphen in this phase is the first of the closing.
pub fn closes(phase: Phase) -> bool
    ensures { result ≡ true → Closes phase }
{
    match phase {
        Phase::Lax(lax) => lax != LaxPhase::Closed,
        Phase::Standard(standard) => matches!(
            standard,
            StandardPhase::BlankLine
                | StandardPhase::Line
                | StandardPhase::PadLine
                | StandardPhase::Final
        ),
        Phase::Strict(strict) => matches!(strict, StrictPhase::Line | StrictPhase::Final),
        _ => false,
    }
}

// The phase behind the LF of a boundary's line.
pub fn ended_boundary(grammar: Grammar, boundary: Boundary) -> Phase
    ensures { result ≡ next grammar (behind grammar boundary) LF }
{
    match (grammar, boundary) {
        (Grammar::Lax, Boundary::Opening) => Phase::Lax(LaxPhase::Data),
        (Grammar::Standard, Boundary::Opening) => Phase::Standard(StandardPhase::Leading),
        (Grammar::Strict, Boundary::Opening) => Phase::Strict(StrictPhase::First),
        (Grammar::Lax, Boundary::Closing) => Phase::Lax(LaxPhase::Closed),
        (Grammar::Standard, Boundary::Closing) => Phase::Standard(StandardPhase::Ended),
        (Grammar::Strict, Boundary::Closing) => Phase::Strict(StrictPhase::Ended),
    }
}
