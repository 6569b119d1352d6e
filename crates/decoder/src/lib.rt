// Decoding a body: sixteen groups of four characters at once, then fewer, and byte by byte whatever no group covers.
// Output behind what counts as written may hold anything until the end, when it is cleared.
#![tactic(auto)]

ghost use Rattle.std.specs.Prelude.{◌≡◌, true, false, ◌++◌, ◌+◌, ◌-◌, ◌*◌, ◌/◌, ◌%◌, ◌≤◌, ◌<◌, length, replicate};
ghost use Rattle.base_64.specs.Groups.{decode};
ghost use Rattle.grammar.specs.Message.{characters};
ghost use Rattle.runs.specs.Runs.{NoCharacter, Outside};
ghost use Rattle.decoder.specs.Feeding.{HoldsValue, fed, fed_byte};
ghost use Rattle.decoder.specs.Decoding.{Put, Decoding, Further, DecodedLines};
ghost use Rattle.decoder.specs.declared.Open.TheVariants.{Start};

use base_64::{DecodeTable, GROUP_BYTES, GROUP_CHARS, Sextet};
use grammar::{LINE_BYTES, LINE_CHARS, LINE_GROUPS};
use runs::{CRLF_WIDTH, LF_WIDTH, Lines};

mod groups;
mod table;

pub use table::GroupTable;
use table::MARK;

// How many groups are decoded at once where fewer than a line are left.
const FOUR: usize = 4;

// Writes the bytes of a group, and answers its number. A group has three bytes: a fourth is written too, since four are stored at
// once, and stands where the next group comes. Each of these functions writes first and leaves the test to its caller:
// one test of the sum serves for many groups.
fn put_group(table: &GroupTable, text: &[u8], i: usize, out: &mut [u8], at: usize) -> u64
    requires { (i + 4 ≤ length text.now) × (at + 4 ≤ length out.old) }
    ensures { (result ≤ 1073741824) × Put text.now out.old out.new at i 1 result }
{
    let number = table.number_at(text, i);
    output::put_number(out, at, number);
    u64::from(number)
}

// N groups, one behind the other.
fn put_groups<const N: usize>(
    table: &GroupTable,
    text: &[u8],
    i: usize,
    out: &mut [u8],
    at: usize,
) -> u64
    requires { (N ≤ 16) × (i + 4 * N ≤ length text.now) × (at + 3 * N < length out.old) }
    ensures { (result ≤ N * 1073741824) × Put text.now out.old out.new at i N result }
{
    let mut sum = 0;
    for k in 0..N {
        sum += put_group(table, text, i + GROUP_CHARS * k, out, at + GROUP_BYTES * k);
    }
    sum
}

// The sixteen groups of a full line: fours are made of code with no loop.
fn put_line(table: &GroupTable, text: &[u8], i: usize, out: &mut [u8], at: usize) -> u64
    requires { (i + 64 ≤ length text.now) × (at + 48 < length out.old) }
    ensures { Put text.now out.old out.new at i 16 result }
{
    let mut sum = 0;
    for k in 0..LINE_GROUPS / FOUR {
        sum += put_groups::<FOUR>(table, text, i + 16 * k, out, at + 12 * k);
    }
    sum
}

// The first alphabet character from a place on.
#[tactic(auto, using(runs::proofs::Runs::run_imp))]
pub fn skip_outside(values: &DecodeTable, text: &[u8], from: usize) -> usize
    requires { from ≤ length text.now }
    ensures { (from ≤ result) × (result ≤ length text.now) × Outside text.now from result }
{
    runs::end_of_run(
        text,
        from,
        text.len(),
        |c|
            ensures { result ≡ true → NoCharacter c }
        { !values.is_character(c) },
    )
}

// N groups at a time from a place on, as long as they stand side by side; how many groups that are. Here and below the output
// is not written to its last byte, for the byte that is written too much.
fn run_of<const N: usize>(
    table: &GroupTable,
    text: &[u8],
    from: usize,
    out: &mut [u8],
    to: usize,
) -> usize
    requires { (0 < N) × (N ≤ 16) × (from ≤ length text.now) × (to ≤ length out.old) }
    ensures { Put text.now out.old out.new to from result 0 }
{
    let mut i = from;
    let mut at = to;
    let mut groups = 0;
    while GROUP_CHARS * N <= text.len() - i && GROUP_BYTES * N < out.len() - at {
        if table.ends_run(text[i]) || MARK <= put_groups::<N>(table, text, i, out, at) {
            break;
        }
        i += GROUP_CHARS * N;
        at += GROUP_BYTES * N;
        groups += N;
    }
    groups
}

// The groups that stand side by side from a place on, decoded; how many they are.
fn put_run(table: &GroupTable, text: &[u8], from: usize, out: &mut [u8], to: usize) -> usize
    requires { (from ≤ length text.now) × (to ≤ length out.old) }
    ensures { Put text.now out.old out.new to from result 0 }
{
    let fours = run_of::<FOUR>(table, text, from, out, to);
    let ones = run_of::<1>(table, text, from + 4 * fours, out, to + 3 * fours);
    fours + ones
}

// Decodes the full lines that stand at a place: whether they are characters of the alphabet is told by the sums of their groups.
pub fn put_full_lines(table: &GroupTable, text: &[u8], from: usize, out: &mut [u8]) -> Lines
    requires { from ≤ length text.now }
    ensures { DecodedLines text.now true out.old out.new from result.end result.groups result.last result.lf result.crlf }
{
    let mut end = from;
    let mut groups = 0;
    let mut last = from;
    let mut written = 0;
    while LINE_CHARS < text.len() - end && LINE_BYTES < out.len() - written {
        let Some(width) = runs::line_end_at(text, end + LINE_CHARS) else {
            break;
        };
        if MARK <= put_line(table, text, end, out, written) {
            break;
        }
        last = end + LINE_CHARS;
        end = last + width;
        groups += LINE_GROUPS;
        written += LINE_BYTES;
    }
    runs::counted_lines(from, end, groups, last)
}

// Decodes the lines of whole groups that stand at a place, with blanks at their ends: full ones first, then of any length.
pub fn put_lines(table: &GroupTable, text: &[u8], from: usize, out: &mut [u8]) -> Lines
    requires { from ≤ length text.now }
    ensures { DecodedLines text.now false out.old out.new from result.end result.groups result.last result.lf result.crlf }
{
    let mut lines = put_full_lines(table, text, from, out);
    while lines.end < text.len() {
        let more = put_run(table, text, lines.end, out, 3 * lines.groups);
        if more == 0 {
            break;
        }
        let characters = lines.end + 4 * more;
        let blanks = runs::blanks_end(text, characters);
        let Some(width) = runs::line_end_at(text, blanks) else {
            break;
        };
        let lf = lines.lf + (CRLF_WIDTH - width);
        let crlf = lines.crlf + (width - LF_WIDTH);
        lines = Lines {
            end: blanks + width,
            groups: lines.groups + more,
            last: characters,
            lf,
            crlf,
        };
    }
    lines
}

// A group of which so many characters were read, with the value of the last one: its low bits start the next byte.
#[derive(Clone, Copy, Debug, PartialEq, Eq)]
pub enum Open {
    Start,
    One(u8),
    Two(u8),
    Three(u8),
}

// What the next byte of a body leaves open, and the byte of the data that it completes, if it does.
#[derive(Clone, Copy, Debug, PartialEq, Eq)]
struct Fed {
    group: Open,
    byte: Option<u8>,
}

// The next value of an open group.
fn feed(group: Open, value: Sextet) -> Fed
    requires { HoldsValue group }
    ensures { result ≡ fed group value }
{
    let value = value.get();
    let (group, byte) = match group {
        Open::Start => (Open::One(value), None),
        Open::One(a) => (Open::Two(value), Some(a * 4 + value / 16)),
        Open::Two(b) => (Open::Three(value), Some(b % 16 * 16 + value / 4)),
        Open::Three(c) => (Open::Start, Some(c % 4 * 64 + value)),
    };
    Fed { group, byte }
}

// The next byte of a body. One that is no character of the alphabet changes nothing.
fn feed_byte(values: &DecodeTable, group: Open, c: u8) -> Fed
    requires { HoldsValue group }
    ensures { result ≡ fed_byte group c }
{
    match values.value_of(c) {
        Some(value) => feed(group, value),
        None => Fed { group, byte: None },
    }
}

// How far a body was read, the group that is open there, and how many bytes of data were written.
#[derive(Clone, Copy, Debug, PartialEq, Eq)]
struct Progress {
    read: usize,
    group: Open,
    written: usize,
}

// Decodes the next byte of a body.
fn put_byte(values: &DecodeTable, body: &[u8], out: &mut [u8], done: Progress) -> Progress
    requires { (done.read < length body.now) × Decoding body.now out.old done.group done.written done.read }
    ensures { (length out.new ≡ length out.old) × (result.read ≡ done.read + 1) × Decoding body.now out.new result.group result.written result.read }
{
    let fed = feed_byte(values, done.group, body[done.read]);
    let written = match fed.byte {
        Some(byte) => {
            out[done.written] = byte;
            done.written + 1
        }
        None => done.written,
    };
    Progress {
        read: done.read + 1,
        group: fed.group,
        written,
    }
}

// Decodes the groups that stand side by side behind bytes outside the alphabet.
fn put_blocks(
    values: &DecodeTable,
    table: &GroupTable,
    body: &[u8],
    from: usize,
    out: &mut [u8],
    to: usize,
) -> Progress
    requires { (from ≤ length body.now) × Decoding body.now out.old Start to from }
    ensures { (result.group ≡ Start) × Further body.now out.old out.new from result.written result.read }
{
    let start = skip_outside(values, body, from);
    let groups = put_run(table, body, start, out, to);
    Progress {
        read: start + 4 * groups,
        group: Open::Start,
        written: to + 3 * groups,
    }
}

// Writes the data of a body of which a part was decoded before, and zeros behind it: of what stood there nothing is left.
pub fn put_data(
    values: &DecodeTable,
    table: &GroupTable,
    body: &[u8],
    from: usize,
    out: &mut [u8],
    to: usize,
)
    requires { (from ≤ length body.now) × Decoding body.now out.old Start to from }
    ensures { out.new ≡ decode (characters body.now) ++ replicate (length out.old - length (decode (characters body.now))) 0 }
{
    let mut done = put_blocks(values, table, body, from, out, to);
    while done.read < body.len() {
        done = put_byte(values, body, out, done);
        if let Open::Start = done.group {
            done = put_blocks(values, table, body, done.read, out, done.written);
        }
    }
    output::clear_from(out, done.written);
}
