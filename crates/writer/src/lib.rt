// Writing one message: the checks 11 to 14, 20 and 10, and the strict text with line ends of the kind asked.
// The definitions that the contracts cite stand in the crate `writing`, and those for the steps to a full line in specs/.
#![tactic(auto)]

ghost use Rattle.std.specs.Prelude.{◌≡◌, ◌++◌, ◌-◌, ◌≤◌, length, replicate, IfOk};
ghost use Rattle.machine.proofs.Machine.{label_ends};
ghost use Rattle.reading.specs.Limits.{label_limit};
ghost use Rattle.writing.specs.Limits.{data_limit};
ghost use Rattle.writing.specs.Text.{written_text, written_size};
ghost use Rattle.writing.specs.Meaning.{Writes};
ghost use Rattle.writing.specs.Write.{is_label, judge_of, write_of, write_output};

use base_64::{DecodeTable, EncodeTable, GROUP_BYTES, GROUP_CHARS};
use grammar::{BEGIN, END, LINE_BYTES, LineEnding};
use machine::{LabelPhase, LabelTarget};
use output::CallError;
use reading::LABEL_LIMIT;
use writing::{Taken, TextSize, WriteAnswer, WriteRefusal};

mod groups;
mod line;
mod tables;
mod text;

use text::TextWriter;

// The longest data that is written, in bytes.
pub const DATA_LIMIT: usize = 8388608;

// What a text has beside labels, characters and their line ends: the rest of its boundaries, and the line ends of these.
const FRAME: usize = 32;

// The line ends of the boundaries.
const BOUNDARY_ENDS: usize = 2;

// Whether a label may end in this phase.
fn label_ends(phase: LabelPhase) -> bool
    ensures { result ≡ label_ends phase }
{
    matches!(phase, LabelPhase::Start | LabelPhase::Char)
}

// Whether the bytes are a label: by the very steps in which the reader reads one.
fn is_label(values: &DecodeTable, label: &[u8]) -> bool
    ensures { result ≡ is_label label.now }
{
    let mut phase = LabelPhase::Start;
    for b in label {
        let LabelTarget::To(next) = engine::label_step(values, phase, *b) else {
            return false;
        };
        phase = next;
    }
    label_ends(phase)
}

// How many bytes the text of a label and data of these lengths has.
fn text_size(label: usize, content: usize, ending: LineEnding) -> TextSize
    requires { (label ≤ label_limit) × (content ≤ data_limit) }
    ensures { result.0 ≡ written_size ending label content }
{
    let lines = content.div_ceil(LINE_BYTES);
    let size = FRAME + 2 * label + GROUP_CHARS * content.div_ceil(GROUP_BYTES) + lines;
    match ending {
        LineEnding::Lf | LineEnding::Cr => TextSize(size),
        LineEnding::CrLf => TextSize(size + lines + BOUNDARY_ENDS),
    }
}

// The checks 11 to 14 and 20.
fn judge(label: &[u8], content: &[u8], style: u32) -> Result<Taken, WriteRefusal>
    ensures { result ≡ judge_of label.now content.now style }
{
    if LABEL_LIMIT < label.len() {
        return Err(WriteRefusal::LabelTooLong);
    }
    if !is_label(&DecodeTable::new(), label) {
        return Err(WriteRefusal::NotALabel);
    }
    if content.is_empty() {
        return Err(WriteRefusal::NoData);
    }
    if DATA_LIMIT < content.len() {
        return Err(WriteRefusal::DataTooLong);
    }
    let ending = LineEnding::from_number(style).ok_or(WriteRefusal::UnknownStyle)?;
    Ok(Taken {
        ending,
        size: text_size(label.len(), content.len(), ending),
    })
}

// Writes the text to the start of `out`, and zeros behind it: of what stood there nothing is left.
fn put_text(label: &[u8], content: &[u8], ending: LineEnding, out: &mut [u8])
    requires { length (written_text ending label.now content.now) ≤ length out.old }
    ensures { out.new ≡ written_text ending label.now content.now ++ replicate (length out.old - length (written_text ending label.now content.now)) 0 }
{
    let table = EncodeTable::new();
    let mut text = TextWriter::new(out, ending);
    text.put_boundary(&BEGIN, label);
    text.put_lines(&table, content);
    text.put_boundary(&END, label);
    text.clear_rest();
}

// Writes the text if all checks pass.
fn try_write(label: &[u8], content: &[u8], style: u32, out: &mut [u8]) -> WriteAnswer
    ensures answer { result ≡ write_of label.now content.now style (length out.old) }
    ensures output { IfOk result (λ _. out.new ≡ write_output label.now content.now style (length out.old)) }
{
    let taken = judge(label, content, style).map_err(CallError::Refused)?;
    if out.len() < taken.size.0 {
        return Err(CallError::TooSmall(taken.size));
    }
    put_text(label, content, taken.ending, out);
    Ok(taken.size)
}

// Writes the strict text of a label and data, with line ends of the kind that the number asks for. After `Ok` the output holds the
// text and then zeros, after an `Err` zeros only, whatever it held before. Any bytes may come in, any number and any length.
pub fn write(label: &[u8], content: &[u8], style: u32, out: &mut [u8]) -> WriteAnswer
    ensures { (result ≡ write_of label.now content.now style (length out.old)) × (out.new ≡ write_output label.now content.now style (length out.old)) × Writes label.now content.now style (length out.old) result out.new }
{
    let answer = try_write(label, content, style, out);
    if answer.is_err() {
        output::clear(out);
    }
    answer
}
