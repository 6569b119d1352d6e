// A message of the grammar as a scan has read it: where its parts are in the text, and the checks 6 to 9 of them.
ghost use Rattle.std.specs.Prelude.{◌≡◌, ◌+◌, ◌≤◌, ◌<◌, ◌-◌, length, get_or};
ghost use Rattle.base_64.specs.Alphabet.{value_of};
ghost use Rattle.reading.specs.Data.{spare_of};
ghost use Rattle.reading.specs.Ends.{counted_style};
ghost use Rattle.reading.specs.Parts.{OwnPart};
ghost use Rattle.reading.specs.Layouts.{Fits, TallyFits, Lies, spanned, layout_of, last_at};
ghost use Rattle.reading.specs.Read.{labels_agree, counts_fit, spare_zero, spare_clear, found_in, judged_parts};

use base_64::DecodeTable;
use grammar::{Grammar, LineEnding, LineStyle, TextOffset};
use reading::{EndCounts, Found, Judgement, LABEL_LIMIT, Layout, Refusal, Sound, Span, Tally};

// How many bytes of a boundary are not its label's: "-----BEGIN " or "-----END ", and five hyphens.
const OPENING_FRAME: usize = grammar::BEGIN.len() + grammar::HYPHENS.len();

const CLOSING_FRAME: usize = grammar::END.len() + grammar::HYPHENS.len();

// The spare bits of `count` characters, of which `last` is the last one. A byte outside the alphabet has none.
fn spare_bits(values: &DecodeTable, count: usize, last: u8) -> u8
    ensures { result ≡ spare_of count (value_of last) }
{
    let Some(value) = values.value_of(last) else {
        return 0;
    };
    match count % 4 {
        2 => value.get() % 16,
        3 => value.get() % 4,
        _ => 0,
    }
}

// Whether so many characters and pads make whole groups.
fn counts_fit(characters: usize, pads: usize) -> bool
    ensures { result ≡ counts_fit characters pads }
{
    matches!((characters % 4, pads), (0, 0) | (2, 2) | (3, 1))
}

// What the counts of line ends say.
fn counted_style(ends: EndCounts) -> LineStyle
    ensures { result ≡ counted_style ends }
{
    match (ends.lf, ends.crlf, ends.cr) {
        (0, _, 0) => LineStyle::NoLineEnd,
        (_, _, 0) => LineStyle::Only(LineEnding::Lf),
        (0, 0, _) => LineStyle::Only(LineEnding::Cr),
        (0, crlf, cr) if crlf == cr => LineStyle::Only(LineEnding::CrLf),
        _ => LineStyle::Mixed,
    }
}

// The bytes of a part, where they stand.
pub(crate) fn part_at(text: &[u8], span: Span) -> &[u8]
    requires { span.at.0 + span.length ≤ length text.now }
    ensures bytes { result.now ≡ spanned text.now span }
    ensures place { OwnPart text.entry span.at.0 span.length result }
{
    &text[span.at.0..span.at.0 + span.length]
}

// Where the parts of a message are that starts at an offset.
pub fn lay_out(from: TextOffset, tally: Tally) -> Layout
    requires { Fits from.0 tally }
    ensures { result ≡ layout_of from.0 tally }
{
    let opening = TextOffset(from.0 + tally.before);
    let body = TextOffset(opening.0 + tally.opening);
    let closing = TextOffset(body.0 + tally.body);
    Layout {
        opened: Span {
            at: opening.opening_label(),
            length: tally.opening - OPENING_FRAME,
        },
        body: Span {
            at: body,
            length: tally.body,
        },
        closing,
        closed: Span {
            at: closing.closing_label(),
            length: tally.closing - CLOSING_FRAME,
        },
    }
}

// A message within a text: where its parts are, and what was counted of them.
#[derive(Drop)]
pub(crate) struct Message<'a> {
    text: &'a [u8],
    layout: Layout,
    tally: Tally,
    ghost lies: { Lies (length text.now) layout },
    ghost last_lies: { last_at layout tally < length text.now },
}

impl<'a> Message<'a> {
    // The message that starts at an offset of a text and has so many bytes.
    pub(crate) fn new(text: &'a [u8], from: TextOffset, tally: Tally) -> Message<'a>
        requires within { from.0 ≤ length text.now }
        requires parts { TallyFits (length text.now - from.0) tally }
        ensures text { result.text.now ≡ text.now }
        ensures layout { result.layout ≡ layout_of from.0 tally }
        ensures tally { result.tally ≡ tally }
    {
        Message {
            text,
            layout: lay_out(from, tally),
            tally,
        }
    }

    // Whether the labels of the opening and the closing are the same.
    fn labels_agree(&self) -> bool
        ensures { result ≡ labels_agree self.now.text.now self.now.layout }
    {
        part_at(self.text, self.layout.opened) == part_at(self.text, self.layout.closed)
    }

    // Where the last alphabet character of the body is.
    fn last_character(&self) -> TextOffset
        ensures { result.0 ≡ last_at self.now.layout self.now.tally }
    {
        TextOffset(self.layout.body.at.0 + self.tally.last)
    }

    // Whether the spare bits are as the grammar asks: zero under standard and strict.
    fn spare_clear(&self, values: &DecodeTable, grammar: Grammar) -> bool
        ensures { result ≡ spare_clear grammar self.now.text.now self.now.layout self.now.tally }
    {
        match grammar {
            Grammar::Lax => true,
            Grammar::Standard | Grammar::Strict => {
                let last = self.text[self.last_character().0];
                spare_bits(values, self.tally.characters, last) == 0
            }
        }
    }

    // What is reported of it.
    fn found(&self) -> Found
        ensures { result ≡ found_in self.now.text.now self.now.layout self.now.tally }
    {
        let label = self.layout.opened;
        Found {
            size: base_64::decoded_count(self.tally.characters),
            label,
            family: families::family_of(part_at(self.text, label)),
        }
    }

    // The checks 6 to 9.
    pub(crate) fn judge(&self, values: &DecodeTable, grammar: Grammar) -> Judgement
        ensures { result ≡ judged_parts grammar self.now.text.now self.now.layout self.now.tally }
    {
        let Layout {
            opened,
            closing,
            closed,
            ..
        } = self.layout;
        if LABEL_LIMIT < opened.length {
            return Err(Refusal::LabelTooLong(opened.at));
        }
        if !self.labels_agree() {
            return Err(Refusal::LabelsDiffer(closed.at));
        }
        if !counts_fit(self.tally.characters, self.tally.pads) {
            return Err(Refusal::BadCounts(closing));
        }
        if !self.spare_clear(values, grammar) {
            return Err(Refusal::SpareBits(self.last_character()));
        }
        Ok(Sound {
            layout: self.layout,
            found: self.found(),
            style: counted_style(self.tally.ends),
        })
    }
}

// The checks 6 to 9 of a message of the grammar that is laid out like this.
pub fn judge_parts(
    values: &DecodeTable,
    text: &[u8],
    grammar: Grammar,
    layout: Layout,
    tally: Tally,
) -> Judgement
    requires { Lies (length text.now) layout × (last_at layout tally < length text.now) }
    ensures { result ≡ judged_parts grammar text.now layout tally }
{
    Message {
        text,
        layout,
        tally,
    }
    .judge(values, grammar)
}
