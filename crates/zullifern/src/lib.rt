// The door of the library: the calls as Rattle has them. Any bytes may come in, any number and any length.
//
// Each call fills a report of eight numbers: the answer's number, its place, its size, the label's offset, its length and its
// family, the style of the line ends, and zero. `zullifern_c` hands the same calls to C, under the same names.
#![tactic(auto)]

ghost use Rattle.std.specs.Prelude.{◌≡◌, ℕ, length};
ghost use Rattle.reading.specs.Answers.{number_of, refusal_number};
ghost use Rattle.reading.specs.Meaning.{Reads, HandsBack};
ghost use Rattle.reading.specs.Read.{read_of, output_of};
ghost use Rattle.indexing.specs.Answers as indexed;
ghost use Rattle.indexing.specs.Meaning.{Indexes};
ghost use Rattle.indexing.specs.Index.{index_of, lent_table};
ghost use Rattle.writing.specs.Answers as wrote;
ghost use Rattle.writing.specs.Meaning.{Writes};
ghost use Rattle.writing.specs.Write.{write_of, write_output};
ghost use Rattle.zullifern.specs.Answers.{answer_number};
ghost use Rattle.zullifern.specs.Reports.{read_report, refusal_report, found_report, label_report, judged_report, reported_part, ReportsLabel, size_report, index_report, write_report};

use grammar::Family;
use indexing::{IndexAnswer, TableSize};
use output::CallError;
use reading::{Accepted, Found, Judgement, ReadAnswer, Refusal};
use writing::{TextSize, WriteAnswer, WriteRefusal};

// A refusal that has a number in the requirements.
pub trait HasNumber: Copy {
    ghost number_of: { Self → ℕ };

    fn number(self) -> u32
        ensures { result ≡ number_of self };
}

impl HasNumber for Refusal {
    ghost number_of = { refusal_number };

    fn number(self) -> u32 {
        Refusal::number(self)
    }
}

impl HasNumber for WriteRefusal {
    ghost number_of = { wrote.refusal_number };

    fn number(self) -> u32 {
        WriteRefusal::number(self)
    }
}

// The requirements' number of an answer, whatever its result, its refusals and its sizes are: 0 with a result, 10 for want of
// room.
pub fn answer_number<T: Copy, R: HasNumber, S: Copy>(answer: Result<T, CallError<R, S>>) -> u32
    ensures { result ≡ answer_number R.number_of answer }
{
    match answer {
        Ok(_) => 0,
        Err(CallError::Refused(refusal)) => refusal.number(),
        Err(CallError::TooSmall(_)) => 10,
    }
}

// The report of a refusal 1 to 9.
fn refusal_report(refusal: Refusal) -> [u64; 8]
    ensures { result ≡ refusal_report refusal }
{
    [
        u64::from(refusal.number()),
        refusal.place().0 as u64,
        0,
        0,
        0,
        0,
        0,
        0,
    ]
}

// The report of a message that was found, under the number 0 or 10.
fn found_report(number: u64, found: Found, style: u64) -> [u64; 8]
    ensures { result ≡ found_report number found style }
{
    let Found {
        size,
        label,
        family,
    } = found;
    [
        number,
        0,
        size.0 as u64,
        label.at.0 as u64,
        label.length as u64,
        u64::from(Family::told(family)),
        style,
        0,
    ]
}

// The report of what `read` answers.
fn read_report(answer: ReadAnswer) -> [u64; 8]
    ensures { result ≡ read_report answer }
{
    match answer {
        Ok(Accepted { found, style }) => found_report(0, found, u64::from(style.number())),
        Err(CallError::Refused(refusal)) => refusal_report(refusal),
        Err(CallError::TooSmall(found)) => found_report(10, found, 0),
    }
}

// The report of a label's part.
fn label_report(judgement: Judgement) -> [u64; 8]
    ensures { result ≡ judged_report judgement }
{
    let Ok(sound) = judgement else {
        return [0; 8];
    };
    let opened = sound.layout.opened;
    let (at, length) = (opened.at.0 as u64, opened.length as u64);
    [0, 0, 0, at, length, 0, 0, 0]
}

// The report of an answer that has no place and no label.
fn size_report(number: u64, size: usize) -> [u64; 8]
    ensures { result ≡ size_report number size }
{
    [number, 0, size as u64, 0, 0, 0, 0, 0]
}

// The report of what `index` answers.
fn index_report(answer: IndexAnswer) -> [u64; 8]
    ensures { result ≡ index_report answer }
{
    match answer {
        Ok(TableSize(n)) => size_report(0, n),
        Err(CallError::Refused(refusal)) => refusal_report(refusal),
        Err(CallError::TooSmall(TableSize(n))) => size_report(10, n),
    }
}

// The report of what `write` answers.
fn write_report(answer: WriteAnswer) -> [u64; 8]
    ensures { result ≡ write_report answer }
{
    match answer {
        Ok(TextSize(n)) => size_report(0, n),
        Err(CallError::Refused(refusal)) => size_report(u64::from(refusal.number()), 0),
        Err(CallError::TooSmall(TextSize(n))) => size_report(10, n),
    }
}

// Reads a text that is to be one message of the grammar of this number, and answers the number. After 0 the output holds the
// data and then zeros, after anything else zeros only, whatever it held before.
pub fn zullifern_read(text: &[u8], grammar: u32, out: &mut [u8], report: &mut [u64; 8]) -> u32
    ensures { (result ≡ number_of (read_of text.now grammar (length out.old))) × (report.new ≡ read_report (read_of text.now grammar (length out.old))) × (out.new ≡ output_of text.now grammar (length out.old)) × Reads text.now grammar (length out.old) (read_of text.now grammar (length out.old)) out.new }
{
    let answer = reader::read(text, grammar, out);
    *report = read_report(answer);
    answer_number(answer)
}

// The opening label's part of the text: its offset and its length stand in the report's slots 3 and 4, and the call answers
// 0. Where the checks 1 to 9 refuse both are zero; the offset of a label, even of an empty one, is not.
pub fn zullifern_label(text: &[u8], grammar: u32, report: &mut [u64; 8]) -> u32
    ensures { (result ≡ 0) × (report.new ≡ label_report text.now grammar) × HandsBack text.now grammar (reported_part text.now report.new) × ReportsLabel text.now grammar report.new }
{
    *report = label_report(reader::judge(text, grammar));
    0
}

// Indexes a text that is to be a bundle of the grammar of this number, and answers the number. After 0 the table holds the
// count, six numbers for each message (start, length, label offset, label length, data size, family) and then zeros, after
// anything else zeros only, whatever it held before.
pub fn zullifern_index(text: &[u8], grammar: u32, table: &mut [u32], report: &mut [u64; 8]) -> u32
    ensures { (result ≡ indexed.number_of (index_of text.now grammar (length table.old))) × (report.new ≡ index_report (index_of text.now grammar (length table.old))) × (table.new ≡ lent_table text.now grammar (length table.old)) × Indexes text.now grammar (length table.old) (index_of text.now grammar (length table.old)) table.new }
{
    let answer = index::index(text, grammar, table);
    *report = index_report(answer);
    answer_number(answer)
}

// Writes the strict text of a label and data with line ends of the kind that the style's number asks for, and answers the number.
// After 0 the output holds the text and then zeros, after anything else zeros only, whatever it held before.
pub fn zullifern_write(
    label: &[u8],
    content: &[u8],
    style: u32,
    out: &mut [u8],
    report: &mut [u64; 8],
) -> u32
    ensures { (result ≡ wrote.number_of (write_of label.now content.now style (length out.old))) × (report.new ≡ write_report (write_of label.now content.now style (length out.old))) × (out.new ≡ write_output label.now content.now style (length out.old)) × Writes label.now content.now style (length out.old) (write_of label.now content.now style (length out.old)) out.new }
{
    let answer = writer::write(label, content, style, out);
    *report = write_report(answer);
    answer_number(answer)
}
