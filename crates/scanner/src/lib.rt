// The scan of a text: the machine run over it to its first death or the end, and what is counted beside it.
// Runs of bytes that keep the machine in phases of one kind are passed at once. Each such function promises that the scan goes on
// behind the run as if it had read the bytes one by one; the machine's own step decides whatever no run covers.
#![tactic(auto)]

mod tallies;

ghost use Rattle.std.specs.Prelude.{◌≡◌, true, false, ◌+◌, ◌-◌, ◌*◌, ◌≤◌, ◌<◌, ◌^◌, length, drop, get_or, IfSome, MatchOption};
ghost use Rattle.grammar.specs.Marks.{hyphen};
ghost use Rattle.machine.proofs.Machine.{state, behind, start};
ghost use Rattle.machine.specs.declared.Phase.TheVariants.{Strict, Word};
ghost use Rattle.machine.specs.declared.StrictPhase.TheVariants.{Data};
ghost use Rattle.reading.specs.Scan.{no_tally, stopped, scan_of};
ghost use Rattle.reading.proofs.Scans.{Within};
ghost use Rattle.runs.specs.Runs.{between};
ghost use Rattle.decoder.specs.Decoding.{Decoded};
ghost use Rattle.leaps.specs.Phases.{OnCharacter, Lined};
ghost use Rattle.scanner.specs.Advances.{in_phase, Countable, Reaches, Stops, LinesFit, behind_lines};
ghost use Rattle.scanner.specs.Phases.{Continues};

use base_64::{DecodeTable, GROUP_BYTES, GROUP_CHARS, PAD};
use decoder::GroupTable;
use grammar::{Grammar, HYPHEN, HYPHENS, LF, LINE_CHARS, SP, TextOffset};
use leaps::LinePhases;
use machine::{Boundary, LabelPhase, Phase, State, StrictPhase};
use reading::{Scan, Tally};
use runs::Lines;
use tallies::{
    count_byte, no_tally, tally_boundary, tally_ended, tally_ends, tally_others, tally_pads,
    tally_run, tally_width,
};

// How far a scan has come: the offset of the next byte, the machine's state before it, and the tally of those behind it.
#[derive(Clone, Copy, Debug, PartialEq, Eq)]
pub struct Position {
    pub at: usize,
    pub state: State,
    pub tally: Tally,
}

// A scan, and how much of the text was decoded beside it: what stands from one offset to another, as so many bytes of data.
#[derive(Clone, Copy, Debug, PartialEq, Eq)]
pub struct DecodingScan {
    pub scan: Scan,
    pub from: usize,
    pub to: usize,
    pub written: usize,
}

// Where lines lead, and how many bytes of data they were written as.
#[derive(Clone, Copy, Debug, PartialEq, Eq)]
struct DecodedLines {
    position: Position,
    written: usize,
}

impl Position {
    // Behind a byte that is no CR.
    fn in_phase(at: usize, phase: Phase, tally: Tally) -> Position
        ensures { result ≡ in_phase at phase tally }
    {
        Position {
            at,
            state: State { phase, cr: false },
            tally,
        }
    }

    // Behind lines of whole groups, which lead to one phase however many there are.
    fn behind_lines(self, phase: Phase, lines: Lines) -> Position
        requires { LinesFit self lines }
        ensures { result ≡ behind_lines self phase lines }
    {
        if lines.groups == 0 {
            return self;
        }
        let tally = Tally {
            body: self.tally.body + (lines.end - self.at),
            characters: self.tally.characters + GROUP_CHARS * lines.groups,
            last: self.tally.body + (lines.last - self.at) - 1,
            ..self.tally
        };
        Position::in_phase(lines.end, phase, tally_ends(tally, lines.lf, lines.crlf))
    }

    // The same of lines that were decoded.
    fn behind_decoded(self, phase: Phase, lines: Lines) -> DecodedLines
        requires { LinesFit self lines × (3 * lines.groups < 2 ^ 64) }
        ensures { (result.position ≡ behind_lines self phase lines) × (result.written ≡ 3 * lines.groups) }
    {
        DecodedLines {
            position: self.behind_lines(phase, lines),
            written: GROUP_BYTES * lines.groups,
        }
    }

    // What it tells of a scan that began at an offset.
    fn scan_from(self, begin: usize) -> Scan
        requires { begin ≤ self.at }
        ensures { result ≡ stopped self.state (self.at - begin) self.tally }
    {
        Scan {
            phase: self.state.phase,
            length: self.at - begin,
            tally: self.tally,
        }
    }
}

// A text, and the grammar whose machine is run over it.
#[derive(Clone, Copy)]
struct Scanner<'a> {
    values: &'a DecodeTable,
    text: &'a [u8],
    grammar: Grammar,
}

impl Scanner<'_> {
    // Lines of any length, with blanks at their ends, and a run of characters behind them, in the phases in which they may stand:
    // full lines first, then others. It goes on behind blanks within a line where characters may follow them. Behind a short run
    // another one is likely.
    #[tactic(auto, using(crate::proofs::Advances::line_ends))]
    fn advance_lines(&self, from: Position, phases: LinePhases) -> Position
        requires { Countable self.now.text.now from × Lined self.now.grammar from.state.phase phases }
        ensures { Reaches self.now from result }
    {
        let full = runs::full_lines(self.text, from.at);
        let mut position = from.behind_lines(phases.behind, full);
        let mut short = false;
        while position.at < self.text.len() {
            let line = runs::line_at(self.values, self.text, position.at, short);
            let characters = line.characters - position.at;
            if characters == 0 {
                return position;
            }
            short = characters < LINE_CHARS;
            let run = tally_run(position.tally, characters);
            if let Some(width) = line.line_end {
                let end = line.blanks + width;
                let others = tally_others(run, end - line.characters);
                position = Position::in_phase(end, phases.behind, tally_width(others, width));
            } else if line.blanks == line.characters {
                return Position::in_phase(line.blanks, phases.within, run);
            } else {
                let others = tally_others(run, line.blanks - line.characters);
                position = Position::in_phase(line.blanks, phases.trailing, others);
                if !phases.resumes {
                    return position;
                }
            }
        }
        position
    }

    // A run of characters of one strict line.
    fn advance_in_line(&self, position: Position) -> Position
        requires { Countable self.now.text.now position × OnCharacter self.now.grammar position.state.phase (Strict (Data 63)) }
        ensures { Reaches self.now position result }
    {
        let at = position.at;
        let limit = at + LINE_CHARS.min(self.text.len() - at);
        let end = runs::short_run_end(self.values, self.text, at, limit);
        if end == at {
            return position;
        }
        let room = (LINE_CHARS - (end - at)) as u8;
        let phase = Phase::Strict(StrictPhase::Data(room));
        Position::in_phase(end, phase, tally_run(position.tally, end - at))
    }

    // Full lines of the strict grammar, and a run of characters of a further line behind them.
    fn advance_strict_lines(&self, position: Position) -> Position
        requires { Countable self.now.text.now position × OnCharacter self.now.grammar position.state.phase (Strict (Data 63)) }
        ensures { Reaches self.now position result }
    {
        let line = Phase::Strict(StrictPhase::Line);
        let lines = runs::full_lines(self.text, position.at);
        self.advance_in_line(position.behind_lines(line, lines))
    }

    // Lines of the body, where one begins.
    fn advance_body(&self, position: Position) -> Position
        requires { Countable self.now.text.now position }
        ensures { Reaches self.now position result }
    {
        match leaps::body_line(position.state.phase) {
            Some(Grammar::Lax) => self.advance_lines(position, LinePhases::LAX),
            Some(Grammar::Standard) => self.advance_lines(position, LinePhases::STANDARD),
            Some(Grammar::Strict) => self.advance_strict_lines(position),
            None => position,
        }
    }

    // The lines that begin at a position, decoded as they are passed; none where no line of the body begins.
    fn decode_lines(&self, table: &GroupTable, position: Position, out: &mut [u8]) -> DecodedLines
        requires { Countable self.now.text.now position }
        ensures { (length out.new ≡ length out.old) × Decoded (between self.now.text.now position.at result.position.at) out.new result.written × Reaches self.now position result.position }
    {
        match leaps::body_line(position.state.phase) {
            Some(Grammar::Lax) => {
                let lines = decoder::put_lines(table, self.text, position.at, out);
                position.behind_decoded(LinePhases::LAX.behind, lines)
            }
            Some(Grammar::Standard) => {
                let lines = decoder::put_lines(table, self.text, position.at, out);
                position.behind_decoded(LinePhases::STANDARD.behind, lines)
            }
            Some(Grammar::Strict) => {
                let lines = decoder::put_full_lines(table, self.text, position.at, out);
                position.behind_decoded(Phase::Strict(StrictPhase::Line), lines)
            }
            None => DecodedLines {
                position,
                written: 0,
            },
        }
    }

    // The rest of "-----BEGIN " or "-----END ", if it stands there.
    fn advance_word(&self, position: Position, boundary: Boundary, read: u8) -> Option<Position>
        requires { Countable self.now.text.now position × (position.state.phase ≡ Word boundary read) }
        ensures { IfSome result (λ q. Reaches self.now position q × Countable self.now.text.now q × Continues boundary q.state.phase) }
    {
        let word = engine::word(boundary);
        let read = usize::from(read);
        if word.len() <= read || !runs::stands(self.text, position.at, word, read) {
            return None;
        }
        let n = word.len() - read;
        let label = Phase::Label(boundary, LabelPhase::Start);
        let tally = tally_boundary(position.tally, boundary, n);
        Some(Position::in_phase(position.at + n, label, tally))
    }

    // Behind the LF that usually follows a boundary.
    fn behind_boundary(&self, position: Position, boundary: Boundary) -> Position
        requires { Countable self.now.text.now position × (position.state ≡ state (behind self.now.grammar boundary) false) }
        ensures { Reaches self.now position result }
    {
        let at = position.at;
        if at < self.text.len() && self.text[at] == LF {
            let phase = leaps::ended_boundary(self.grammar, boundary);
            let tally = tally_ended(position.tally, boundary);
            return Position::in_phase(at + 1, phase, tally);
        }
        position
    }

    // Characters of a label, and the five hyphens behind them.
    fn advance_label(&self, position: Position, boundary: Boundary) -> Position
        requires { Countable self.now.text.now position × Continues boundary position.state.phase }
        ensures { Reaches self.now position result }
    {
        let label_end = runs::label_run_end(self.text, position.at);
        if runs::stands(self.text, label_end, &HYPHENS, 0) {
            let end = label_end + HYPHENS.len();
            let behind = engine::behind_boundary(self.grammar, boundary);
            let tally = tally_boundary(position.tally, boundary, end - position.at);
            return self.behind_boundary(Position::in_phase(end, behind, tally), boundary);
        }
        if label_end == position.at {
            return position;
        }
        let phase = Phase::Label(boundary, LabelPhase::Char);
        let tally = tally_boundary(position.tally, boundary, label_end - position.at);
        Position::in_phase(label_end, phase, tally)
    }

    // A boundary, from some byte of its word on: the word, the label, its hyphens and a LF, as far as they stand there.
    fn advance_boundary(&self, position: Position, boundary: Boundary, read: u8) -> Position
        requires { Countable self.now.text.now position × (position.state.phase ≡ Word boundary read) }
        ensures { Reaches self.now position result }
    {
        match self.advance_word(position, boundary, read) {
            Some(label) => self.advance_label(label, boundary),
            None => position,
        }
    }

    // The closing, where it may stand.
    fn advance_closing(&self, position: Position) -> Position
        requires { Countable self.now.text.now position × (position.at < length self.now.text.now) × (get_or self.now.text.now position.at 0 ≡ hyphen) }
        ensures { Reaches self.now position result }
    {
        if !leaps::closes(position.state.phase) {
            return position;
        }
        let word = Phase::Word(Boundary::Closing, 1);
        let tally = tally_boundary(position.tally, Boundary::Closing, 1);
        let closing = Position::in_phase(position.at + 1, word, tally);
        self.advance_boundary(closing, Boundary::Closing, 1)
    }

    // Pads and a line end behind them, which end the data of most messages.
    #[tactic(auto, using(crate::proofs::Advances::line_ends))]
    fn advance_pads(&self, position: Position) -> Position
        requires { Countable self.now.text.now position }
        ensures { Reaches self.now position result }
    {
        let pads = runs::pads_at(self.text, position.at);
        let Some(phase) = leaps::padded(position.state.phase, pads) else {
            return position;
        };
        let Some(width) = runs::line_end_at(self.text, position.at + pads) else {
            return position;
        };
        let line = tally_others(tally_pads(position.tally, pads), width);
        Position::in_phase(position.at + pads + width, phase, tally_width(line, width))
    }

    // Behind the opening: the closing, pads, or lines of the body.
    fn advance_inside(&self, position: Position) -> Position
        requires { Countable self.now.text.now position × (position.at < length self.now.text.now) }
        ensures { Reaches self.now position result }
    {
        match self.text[position.at] {
            HYPHEN => self.advance_closing(position),
            PAD => self.advance_pads(position),
            _ => self.advance_body(position),
        }
    }

    // The run that stands at a position, if the phase has one.
    fn advance_run(&self, position: Position) -> Position
        requires { Countable self.now.text.now position × (position.at < length self.now.text.now) }
        ensures { Reaches self.now position result }
    {
        match position.state.phase {
            Phase::Word(boundary, read) => self.advance_boundary(position, boundary, read),
            Phase::Label(boundary, LabelPhase::Start | LabelPhase::Char) => {
                self.advance_label(position, boundary)
            }
            Phase::Label(..) => position,
            _ => self.advance_inside(position),
        }
    }

    // The next byte, by the machine's step; none where the machine dies of it.
    fn advance_byte(&self, position: Position) -> Option<Position>
        requires { (position.at < length self.now.text.now) × Within position.tally position.at }
        ensures { MatchOption result (Stops self.now position) (λ q. Reaches self.now position q × (position.at < q.at)) }
    {
        let b = self.text[position.at];
        let before = position.state;
        let behind = engine::step(self.values, before, self.grammar, b);
        if engine::is_dead(behind.phase) {
            return None;
        }
        let part = engine::byte_part(engine::part_of(before.phase), engine::part_of(behind.phase));
        Some(Position {
            at: position.at + 1,
            state: behind,
            tally: count_byte(self.values, position.tally, before.cr, part, b),
        })
    }

    // Whether a run is worth looking for: none begins with white, and a byte with white behind it is none, but for a pad.
    fn may_run(&self, at: usize) -> bool
        requires { at < length self.now.text.now }
    {
        match &self.text[at..] {
            [PAD, ..] => true,
            [b, next, ..] => SP < *b && SP < *next,
            _ => false,
        }
    }

    // The next run or, where there is none, the next byte; none where the machine dies of it.
    fn advance(&self, position: Position) -> Option<Position>
        requires { (position.at < length self.now.text.now) × Within position.tally position.at }
        ensures { MatchOption result (Stops self.now position) (λ q. Reaches self.now position q × (position.at < q.at)) }
    {
        if self.may_run(position.at) {
            let run = self.advance_run(position);
            if position.at < run.at {
                return Some(run);
            }
        }
        self.advance_byte(position)
    }

    // Whether the body's first line begins at a position. White may stand before it.
    fn begins_body(&self, position: Position) -> bool
        requires { position.at < length self.now.text.now }
    {
        SP < self.text[position.at] && leaps::body_line(position.state.phase).is_some()
    }

    // Scans the text from a position on, to its first death or the end, or up to the body's first line where that is asked.
    fn scan_on(&self, from: Position, to_body: bool) -> Position
        requires { (from.at ≤ length self.now.text.now) × Within from.tally from.at }
        ensures { Reaches self.now from result × (to_body ≡ false → Stops self.now result) }
    {
        let mut position = from;
        while position.at < self.text.len() {
            if to_body && self.begins_body(position) {
                return position;
            }
            let Some(next) = self.advance(position) else {
                return position;
            };
            position = next;
        }
        position
    }
}

// Reads a text from an offset on with the machine, to its first death or the end.
pub fn scan_text(
    values: &DecodeTable,
    text: &[u8],
    from: TextOffset,
    grammar: Grammar,
    first: State,
) -> Scan
    requires { from.0 ≤ length text.now }
    ensures { result ≡ scan_of grammar first 0 no_tally (drop from.0 text.now) }
{
    let scanner = Scanner {
        values,
        text,
        grammar,
    };
    let begin = Position {
        at: from.0,
        state: first,
        tally: no_tally(),
    };
    scanner.scan_on(begin, false).scan_from(begin.at)
}

// Reads a text in the same way from its start on, and decodes the full lines that its body begins with as it passes them.
pub fn scan_decoding(
    values: &DecodeTable,
    table: &GroupTable,
    text: &[u8],
    grammar: Grammar,
    out: &mut [u8],
) -> DecodingScan
    ensures { (result.scan ≡ scan_of grammar (start grammar) 0 no_tally text.now) × (length out.new ≡ length out.old) × (result.from ≤ result.to) × Decoded (between text.now result.from result.to) out.new result.written }
{
    let scanner = Scanner {
        values,
        text,
        grammar,
    };
    let begin = Position {
        at: 0,
        state: engine::start(grammar),
        tally: no_tally(),
    };
    let opened = scanner.scan_on(begin, true);
    let lines = scanner.decode_lines(table, opened, out);
    let end = scanner.scan_on(lines.position, false);
    DecodingScan {
        scan: end.scan_from(0),
        from: opened.at,
        to: lines.position.at,
        written: lines.written,
    }
}
