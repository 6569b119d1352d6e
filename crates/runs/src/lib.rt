// What stands in a text from a place on: runs of bytes of one kind, lines, words. No function here knows a grammar: each promises
// only what the bytes are that it has passed.
#![tactic(auto)]

ghost use Rattle.std.specs.Prelude.{◌≡◌, true, ◌+◌, ◌<◌, ◌≤◌, length};
ghost use Rattle.base_64.specs.Alphabet.{AlphabetChar};
ghost use Rattle.grammar.specs.Marks.{Blank, LabelChar};
ghost use Rattle.runs.specs.Runs.{Run, Characters, Blanks, Pads, LabelRun, LineEndAt, IsLine, LinesTo, OfLength, FullLength, Stands};

use base_64::{DecodeTable, PAD};
use grammar::{CR, FIRST_MARK, HT, HYPHEN, LAST_MARK, LF, LINE_CHARS, LINE_GROUPS, SP};

// How many bytes are tested at once where fewer than a line are left.
const BLOCK: usize = 16;

// The bytes of the line ends that lines are passed with: of the two widths each tells its kind.
pub const LF_WIDTH: usize = 1;

pub const CRLF_WIDTH: usize = 2;

// A run of characters and blanks behind it, by the offsets at which they end, and how many bytes the line end behind them has; any of
// the three may be missing.
#[derive(Clone, Copy, Debug, PartialEq, Eq)]
pub struct Line {
    pub characters: usize,
    pub blanks: usize,
    pub line_end: Option<usize>,
}

// Lines of whole groups: where they end, how many groups they have, where the characters of the last one end, and how many of
// them end with LF and with CRLF.
#[derive(Clone, Copy, Debug, PartialEq, Eq)]
pub struct Lines {
    pub end: usize,
    pub groups: usize,
    pub last: usize,
    pub lf: usize,
    pub crlf: usize,
}

// Where the bytes end that pass a test, from a place on and up to a limit.
pub fn end_of_run<F: Fn(u8) -> bool>(text: &[u8], from: usize, limit: usize, passes: F) -> usize
    requires { (from ≤ limit) × (limit ≤ length text.now) × F.IsAlwaysCallable passes }
    ensures { (from ≤ result) × (result ≤ limit) × Run (λ c. F.post passes c true) text.now from result }
{
    let mut at = from;
    while at < limit && passes(text[at]) {
        at += 1;
    }
    at
}

// 0 for a character of the alphabet, 1 for another byte. For whole blocks alone, and by plain comparisons where all else goes by
// the decode table: a loop over them is made of vector code, and one over a table, over patterns of ranges or over a single
// condition is not, at 16 bytes.
#[tactic(auto, using(crate::proofs::Alphabet::ranges))]
fn outside(b: u8) -> u8
    ensures { result ≡ 0 → AlphabetChar b }
{
    if b'A' <= b && b <= b'Z' {
        return 0;
    }
    if b'a' <= b && b <= b'z' {
        return 0;
    }
    if b'/' <= b && b <= b'9' {
        return 0;
    }
    u8::from(b != b'+')
}

// Whether the N bytes from a place on are characters of the alphabet. All of them are looked at, since vector code has no early end.
#[tactic(auto, using(std::proofs::lemmas::Nat::le_or_l, std::proofs::lemmas::Nat::le_or_r))]
fn all_characters<const N: usize>(text: &[u8], at: usize) -> bool
    requires { at + N ≤ length text.now }
    ensures { result ≡ true → Characters text.now at (at + N) }
{
    let mut any = 0;
    for k in 0..N {
        any |= outside(text[at + k]);
    }
    any == 0
}

// How far a run of alphabet characters goes, N of them at a time and up to the limit at the latest. It may stop early. A look at the
// next byte in the table spares a block that would fail at once.
fn run_by<const N: usize>(values: &DecodeTable, text: &[u8], from: usize, limit: usize) -> usize
    requires { (0 < N) × (from ≤ limit) × (limit ≤ length text.now) }
    ensures { (from ≤ result) × (result ≤ limit) × Characters text.now from result }
{
    let mut at = from;
    while N <= limit - at && values.is_character(text[at]) && all_characters::<N>(text, at) {
        at += N;
    }
    at
}

// The end of a run that is likely to be shorter than a full line: by blocks, and what is left byte by byte.
#[tactic(auto, using(crate::proofs::Runs::run_imp, crate::proofs::Runs::run_then))]
pub fn short_run_end(values: &DecodeTable, text: &[u8], from: usize, limit: usize) -> usize
    requires { (from ≤ limit) × (limit ≤ length text.now) }
    ensures { (from ≤ result) × (result ≤ limit) × Characters text.now from result }
{
    let blocks = run_by::<BLOCK>(values, text, from, limit);
    end_of_run(
        text,
        blocks,
        limit,
        |c|
            ensures { result ≡ true → AlphabetChar c }
        { values.is_character(c) },
    )
}

// The end of a run of any length. Where a short one is likely no full line is tried first; what is found is the same.
fn run_end(values: &DecodeTable, text: &[u8], from: usize, limit: usize, short: bool) -> usize
    requires { (from ≤ limit) × (limit ≤ length text.now) }
    ensures { (from ≤ result) × (result ≤ limit) × Characters text.now from result }
{
    let lines = if short {
        from
    } else {
        run_by::<LINE_CHARS>(values, text, from, limit)
    };
    short_run_end(values, text, lines, limit)
}

fn is_blank(b: u8) -> bool
    ensures { result ≡ true → Blank b }
{
    matches!(b, SP | HT)
}

// The end of a run of blanks.
#[tactic(auto, using(crate::proofs::Runs::run_imp))]
pub fn blanks_end(text: &[u8], from: usize) -> usize
    requires { from ≤ length text.now }
    ensures { (from ≤ result) × (result ≤ length text.now) × Blanks text.now from result }
{
    end_of_run(text, from, text.len(), is_blank)
}

// How many bytes the LF or the CRLF at a place has, where one stands. A single CR is left to the machine's step.
// LF is looked for first, before a second byte: that is faster.
#[tactic(auto, using(crate::proofs::Runs::ends_found))]
pub fn line_end_at(text: &[u8], at: usize) -> Option<usize>
    requires { at ≤ length text.now }
    ensures { LineEndAt text.now at result }
{
    let [first, rest @ ..] = &text[at..] else {
        return None;
    };
    match (*first, rest) {
        (LF, _) => Some(LF_WIDTH),
        (CR, [LF, ..]) => Some(CRLF_WIDTH),
        _ => None,
    }
}

// How many pads stand at a place, two at most.
pub fn pads_at(text: &[u8], at: usize) -> usize
    requires { at ≤ length text.now }
    ensures { (result ≤ 2) × (at + result ≤ length text.now) × Pads text.now at (at + result) }
{
    match &text[at..] {
        [PAD, PAD, ..] => 2,
        [PAD, ..] => 1,
        _ => 0,
    }
}

// What stands at a place: a run of characters, which is likely to be short or not, blanks, a line end.
pub fn line_at(values: &DecodeTable, text: &[u8], at: usize, short: bool) -> Line
    requires { at ≤ length text.now }
    ensures { IsLine text.now at result.characters result.blanks result.line_end }
{
    let characters = run_end(values, text, at, text.len(), short);
    let blanks = blanks_end(text, characters);
    Line {
        characters,
        blanks,
        line_end: line_end_at(text, blanks),
    }
}

// Full lines with their line ends counted. Their length tells: a full line has 64 characters and no blanks, and what they have more
// than one byte for each line end is that of CRLF. So nothing is counted line by line.
pub fn counted_lines(from: usize, end: usize, groups: usize, last: usize) -> Lines
    requires { FullLength from end groups }
    ensures { (result.end ≡ end) × (result.groups ≡ groups) × (result.last ≡ last) × OfLength from end groups result.lf result.crlf }
{
    let lines = groups / LINE_GROUPS;
    let crlf = end - from - (LINE_CHARS + LF_WIDTH) * lines;
    Lines {
        end,
        groups,
        last,
        lf: lines - crlf,
        crlf,
    }
}

// The full lines that stand at a place, one after the other.
pub fn full_lines(text: &[u8], from: usize) -> Lines
    requires { from ≤ length text.now }
    ensures { LinesTo text.now true from result.end result.groups result.last result.lf result.crlf }
{
    let mut end = from;
    let mut groups = 0;
    let mut last = from;
    while LINE_CHARS < text.len() - end && all_characters::<LINE_CHARS>(text, end) {
        let Some(width) = line_end_at(text, end + LINE_CHARS) else {
            break;
        };
        last = end + LINE_CHARS;
        end = last + width;
        groups += LINE_GROUPS;
    }
    counted_lines(from, end, groups, last)
}

// Whether what is left of a word behind its first bytes stands at a place.
pub fn stands(text: &[u8], at: usize, word: &[u8], skip: usize) -> bool
    requires { (at ≤ length text.now) × (skip ≤ length word.now) }
    ensures { result ≡ true → Stands text.now at word.now skip }
{
    text[at..].starts_with(&word[skip..])
}

fn is_label_char(b: u8) -> bool
    ensures { result ≡ true → LabelChar b }
{
    matches!(b, FIRST_MARK..=LAST_MARK) && b != HYPHEN
}

// The end of a run of label characters.
#[tactic(auto, using(crate::proofs::Runs::run_imp))]
pub fn label_run_end(text: &[u8], from: usize) -> usize
    requires { from ≤ length text.now }
    ensures { (from ≤ result) × (result ≤ length text.now) × LabelRun text.now from result }
{
    end_of_run(text, from, text.len(), is_label_char)
}
