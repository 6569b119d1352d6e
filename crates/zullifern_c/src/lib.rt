// The calls for C: those of `zullifern`, each with its clauses again. A slice is handed over as a pointer and a length. The archive is
// delivered as libzullifern.a, with include/zullifern.h.
#![tactic(auto)]

ghost use Rattle.std.specs.Prelude.{◌≡◌, length};
ghost use Rattle.reading.specs.Answers.{number_of};
ghost use Rattle.reading.specs.Meaning.{Reads, HandsBack};
ghost use Rattle.reading.specs.Read.{read_of, output_of};
ghost use Rattle.indexing.specs.Answers as indexed;
ghost use Rattle.indexing.specs.Meaning.{Indexes};
ghost use Rattle.indexing.specs.Index.{index_of, lent_table};
ghost use Rattle.writing.specs.Answers as wrote;
ghost use Rattle.writing.specs.Meaning.{Writes};
ghost use Rattle.writing.specs.Write.{write_of, write_output};
ghost use Rattle.zullifern.specs.Reports.{read_report, label_report, reported_part, ReportsLabel, index_report, write_report};

// Reads a text that is to be one message of the grammar of this number, and answers the number. After 0 the output holds the
// data and then zeros, after anything else zeros only, whatever it held before.
#[unsafe(no_mangle)]
pub extern "C" fn zullifern_read(
    text: &[u8],
    grammar: u32,
    out: &mut [u8],
    report: &mut [u64; 8],
) -> u32
    ensures { (result ≡ number_of (read_of text.now grammar (length out.old))) × (report.new ≡ read_report (read_of text.now grammar (length out.old))) × (out.new ≡ output_of text.now grammar (length out.old)) × Reads text.now grammar (length out.old) (read_of text.now grammar (length out.old)) out.new }
{
    zullifern::zullifern_read(text, grammar, out, report)
}

// The opening label's part of the text: its offset and its length stand in the report's slots 3 and 4, and the call answers
// 0. Where the checks 1 to 9 refuse both are zero; the offset of a label, even of an empty one, is not.
#[unsafe(no_mangle)]
pub extern "C" fn zullifern_label(text: &[u8], grammar: u32, report: &mut [u64; 8]) -> u32
    ensures { (result ≡ 0) × (report.new ≡ label_report text.now grammar) × HandsBack text.now grammar (reported_part text.now report.new) × ReportsLabel text.now grammar report.new }
{
    zullifern::zullifern_label(text, grammar, report)
}

// Indexes a text that is to be a bundle of the grammar of this number, and answers the number. After 0 the table holds the
// count, six numbers for each message (start, length, label offset, label length, data size, family) and then zeros, after
// anything else zeros only, whatever it held before.
#[unsafe(no_mangle)]
pub extern "C" fn zullifern_index(
    text: &[u8],
    grammar: u32,
    table: &mut [u32],
    report: &mut [u64; 8],
) -> u32
    ensures { (result ≡ indexed.number_of (index_of text.now grammar (length table.old))) × (report.new ≡ index_report (index_of text.now grammar (length table.old))) × (table.new ≡ lent_table text.now grammar (length table.old)) × Indexes text.now grammar (length table.old) (index_of text.now grammar (length table.old)) table.new }
{
    zullifern::zullifern_index(text, grammar, table, report)
}

// Writes the strict text of a label and data with line ends of the kind that the style's number asks for, and answers the number.
// After 0 the output holds the text and then zeros, after anything else zeros only, whatever it held before.
#[unsafe(no_mangle)]
pub extern "C" fn zullifern_write(
    label: &[u8],
    content: &[u8],
    style: u32,
    out: &mut [u8],
    report: &mut [u64; 8],
) -> u32
    ensures { (result ≡ wrote.number_of (write_of label.now content.now style (length out.old))) × (report.new ≡ write_report (write_of label.now content.now style (length out.old))) × (out.new ≡ write_output label.now content.now style (length out.old)) × Writes label.now content.now style (length out.old) (write_of label.now content.now style (length out.old)) out.new }
{
    zullifern::zullifern_write(label, content, style, out, report)
}
