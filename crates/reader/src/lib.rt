// Reading one message: the checks 1 to 10 of a text, its data and its label.
// The definitions that the contracts cite stand in the crate `reading`.
#![tactic(auto)]

ghost use Rattle.std.specs.Prelude.{◌≡◌, ◌++◌, ◌+◌, ◌-◌, ◌≤◌, ◌<◌, cond, true, length, replicate, Ok, Err, IfOk, MatchResult};
ghost use Rattle.base_64.specs.Groups.{decode};
ghost use Rattle.grammar.specs.Message.{characters};
ghost use Rattle.runs.specs.Runs.{between};
ghost use Rattle.decoder.specs.Decoding.{Decoded};
ghost use Rattle.machine.proofs.Machine.{start, part_of, accepting};
ghost use Rattle.reading.specs.Meaning.{Admitted, NotAdmitted, Reads, HandsBack, HandsBackPart};
ghost use Rattle.reading.specs.Scan.{no_tally, scan_of};
ghost use Rattle.reading.specs.Layouts.{spanned, layout_of, TallyFits};
ghost use Rattle.reading.specs.Read.{grammar_refusal, judged_parts, judged_scan, judge_of, read_of, output_of, label_of};

mod message;

use base_64::DecodeTable;
use decoder::GroupTable;
use grammar::{Grammar, TextOffset};
use machine::Part;
use message::{Message, part_at};
pub use message::{judge_parts, lay_out};
use output::CallError;
use reading::{Accepted, Judgement, ReadAnswer, Refusal, Scan, Sound, Span, TEXT_LIMIT};
use scanner::DecodingScan;

// The refusal where the grammar fails: the part that was being read decides.
pub fn grammar_refusal(part: Part, place: TextOffset) -> Refusal
    ensures { result ≡ grammar_refusal part place.0 }
{
    match part {
        Part::Before | Part::Opening => Refusal::BadOpening(place),
        Part::Body => Refusal::BadBody(place),
        Part::Closing | Part::After => Refusal::BadClosing(place),
    }
}

// The checks 1 and 2: the grammar that the number asks for, if the text is not too long.
pub fn admit(text: &[u8], grammar: u32) -> Result<Grammar, Refusal>
    ensures { MatchResult result (λ g. Admitted text.now grammar g) (λ refusal. NotAdmitted text.now grammar refusal) }
{
    let known = Grammar::from_number(grammar).ok_or(Refusal::UnknownGrammar)?;
    if TEXT_LIMIT < text.len() {
        return Err(Refusal::TextTooLong);
    }
    Ok(known)
}

// The checks 3 to 9 of the message that a scan has read from an offset on.
pub fn judge_message(
    values: &DecodeTable,
    text: &[u8],
    grammar: Grammar,
    from: TextOffset,
    scan: Scan,
) -> Judgement
    requires within { from.0 + scan.length ≤ length text.now }
    requires parts { accepting scan.phase ≡ true → TallyFits scan.length scan.tally }
    ensures { result ≡ cond (accepting scan.phase) (judged_parts grammar text.now (layout_of from.0 scan.tally) scan.tally) (Err (grammar_refusal (part_of scan.phase) (from.0 + scan.length))) }
{
    if !engine::is_accepting(scan.phase) {
        let place = TextOffset(from.0 + scan.length);
        return Err(grammar_refusal(engine::part_of(scan.phase), place));
    }
    Message::new(text, from, scan.tally).judge(values, grammar)
}

// The checks 3 to 9 of a text that was scanned from its start.
fn judge_scan(values: &DecodeTable, text: &[u8], grammar: Grammar, scan: Scan) -> Judgement
    requires { scan ≡ scan_of grammar (start grammar) 0 no_tally text.now }
    ensures { result ≡ judged_scan grammar text.now scan }
{
    if scan.length != text.len() {
        let place = TextOffset(scan.length);
        return Err(grammar_refusal(engine::part_of(scan.phase), place));
    }
    judge_message(values, text, grammar, TextOffset(0), scan)
}

// The checks 1 to 9 of a text, which is to be one message.
pub fn judge(text: &[u8], grammar: u32) -> Judgement
    ensures { result ≡ judge_of text.now grammar }
{
    let grammar = admit(text, grammar)?;
    let values = DecodeTable::new();
    let first = engine::start(grammar);
    let scan = scanner::scan_text(&values, text, TextOffset(0), grammar, first);
    judge_scan(&values, text, grammar, scan)
}

// Writes the data of a body, and zeros behind it. The lines that the scan has decoded are not decoded again: those that the body
// begins with, but for bytes outside the alphabet.
fn put_body(
    values: &DecodeTable,
    table: &GroupTable,
    text: &[u8],
    body: Span,
    pass: DecodingScan,
    out: &mut [u8],
)
    requires { (body.at.0 + body.length ≤ length text.now) × (length (decode (characters (spanned text.now body))) ≤ length out.old) × (pass.from ≤ pass.to) × Decoded (between text.now pass.from pass.to) out.old pass.written }
    ensures { out.new ≡ decode (characters (spanned text.now body)) ++ replicate (length out.old - length (decode (characters (spanned text.now body)))) 0 }
{
    let begin = body.at.0;
    let part = part_at(text, body);
    if begin <= pass.from
        && pass.to - begin <= body.length
        && pass.from - begin <= decoder::skip_outside(values, part, 0)
    {
        decoder::put_data(values, table, part, pass.to - begin, out, pass.written);
    } else {
        decoder::put_data(values, table, part, 0, out, 0);
    }
}

// Reads a text as `read` does, but where it fails, the output is left with the lines that were decoded while the text was
// scanned.
fn try_read(text: &[u8], grammar: u32, out: &mut [u8]) -> ReadAnswer
    ensures answer { result ≡ read_of text.now grammar (length out.old) }
    ensures data { IfOk result (λ _. out.new ≡ output_of text.now grammar (length out.old)) }
{
    let grammar = admit(text, grammar)?;
    let values = DecodeTable::new();
    let table = GroupTable::new();
    let pass = scanner::scan_decoding(&values, &table, text, grammar, out);
    let Sound {
        layout,
        found,
        style,
    } = judge_scan(&values, text, grammar, pass.scan)?;
    if out.len() < found.size.0 {
        return Err(CallError::TooSmall(found));
    }
    put_body(&values, &table, text, layout.body, pass, out);
    Ok(Accepted { found, style })
}

// Reads a text that is to be one message of the grammar of this number. After `Ok` the output holds the data and then zeros,
// after anything else zeros only, whatever it held before. Any bytes may come in, any number and any length.
pub fn read(text: &[u8], grammar: u32, out: &mut [u8]) -> ReadAnswer
    ensures { (result ≡ read_of text.now grammar (length out.old)) × (out.new ≡ output_of text.now grammar (length out.old)) × Reads text.now grammar (length out.old) result out.new }
{
    let answer = try_read(text, grammar, out);
    if answer.is_err() {
        output::clear(out);
    }
    answer
}

// The opening label, as the caller's own part of the text and no copy; an empty part where the checks 1 to 9 refuse.
pub fn label(text: &[u8], grammar: u32) -> &[u8]
    ensures { (result.now ≡ label_of text.now grammar) × HandsBack text.now grammar result.now × HandsBackPart text.entry grammar result }
{
    match judge(text, grammar) {
        Ok(sound) => part_at(text, sound.layout.opened),
        Err(_) => &text[..0],
    }
}
