// Indexing a bundle: its messages judged from the left by the reader's scan and checks, and the table of their numbers.
// The definitions that the contracts cite stand in the crate `indexing`.
#![tactic(auto)]

ghost use Rattle.std.specs.Prelude.{◌≡◌, ◌+◌, ◌≤◌, ◌<◌, ◌^◌, length, replicate, IfOk};
ghost use Rattle.grammar.specs.Grammars.{grammar_of};
ghost use Rattle.reading.specs.Limits.{text_limit};
ghost use Rattle.indexing.specs.Answers.{size_for};
ghost use Rattle.indexing.specs.Meaning.{Indexes};
ghost use Rattle.indexing.specs.Index.{Holdable, entered, walk_of, walk_by, surveyed, Filled, index_of, lent_table};

use base_64::DecodeTable;
use grammar::{Family, Grammar, TextOffset};
use indexing::{Entry, IndexAnswer, TableSize};
use output::CallError;
use reading::{Refusal, Span};

// How many numbers a table has for each message.
pub const ENTRY_NUMBERS: usize = 6;

// How many numbers a table of so many messages has.
fn size_for(count: usize) -> TableSize
    requires { count < 2 ^ 32 }
    ensures { result.0 ≡ size_for count }
{
    TableSize(1 + ENTRY_NUMBERS * count)
}

// Writes the numbers of a message behind those of `count` others, where the table has room for them.
fn put_entry(table: &mut [u32], count: usize, entry: Entry)
    requires { (count < 2 ^ 32) × Holdable entry }
    ensures { table.new ≡ entered table.old count entry }
{
    let at = size_for(count).0;
    let end = at + ENTRY_NUMBERS;
    if table.len() < end {
        return;
    }
    let Entry { message, found } = entry;
    table[at..end].copy_from_slice(&[
        message.at.0 as u32,
        message.length as u32,
        found.label.at.0 as u32,
        found.label.length as u32,
        found.size.0 as u32,
        Family::told(found.family),
    ]);
}

// The checks 3 to 9 of a bundle's messages from the left: how many there are. The numbers of those that passed are written
// where the table has room for them. A message is as long as its scan finds, so the offset goes on by hand.
fn walk(
    values: &DecodeTable,
    text: &[u8],
    grammar: Grammar,
    table: &mut [u32],
) -> Result<usize, Refusal>
    requires { (length text.now ≤ text_limit) × (table.old ≡ replicate (length table.old) 0) }
    ensures { (result ≡ surveyed (walk_of grammar text.now)) × Filled (walk_of grammar text.now) table.new }
{
    let mut first = engine::start(grammar);
    let mut at = 0;
    let mut count = 0;
    while at < text.len() {
        let from = TextOffset(at);
        let scan = scanner::scan_text(values, text, from, grammar, first);
        let sound = reader::judge_message(values, text, grammar, from, scan)?;
        let message = Span {
            at: from,
            length: scan.length,
        };
        let found = sound.found;
        put_entry(table, count, Entry { message, found });
        first = engine::later();
        at += scan.length;
        count += 1;
    }
    Ok(count)
}

// The checks 1 to 9: how many messages there are.
fn survey(text: &[u8], grammar: u32, table: &mut [u32]) -> Result<usize, Refusal>
    ensures { (result ≡ surveyed (walk_by (grammar_of grammar) text.now)) × Filled (walk_by (grammar_of grammar) text.now) table.new }
{
    let grammar = reader::admit(text, grammar)?;
    table.fill(0);
    let values = DecodeTable::new();
    walk(&values, text, grammar, table)
}

// Indexes a text as `index` does, but where it fails, the table is left with the numbers of the messages that passed.
fn try_index(text: &[u8], grammar: u32, table: &mut [u32]) -> IndexAnswer
    ensures answer { result ≡ index_of text.now grammar (length table.old) }
    ensures numbers { IfOk result (λ _. table.new ≡ lent_table text.now grammar (length table.old)) }
{
    let count = survey(text, grammar, table)?;
    let size = size_for(count);
    if table.len() < size.0 {
        return Err(CallError::TooSmall(size));
    }
    table[0] = count as u32;
    Ok(size)
}

// Indexes a text that is to be a bundle of the grammar of this number. After `Ok` the table holds the count, six numbers for
// each message (start, length, label offset, label length, data size, family) and then zeros, after anything else zeros only,
// whatever it held before. Any bytes may come in, any number and any length.
pub fn index(text: &[u8], grammar: u32, table: &mut [u32]) -> IndexAnswer
    ensures { (result ≡ index_of text.now grammar (length table.old)) × (table.new ≡ lent_table text.now grammar (length table.old)) × Indexes text.now grammar (length table.old) result table.new }
{
    let answer = try_index(text, grammar, table);
    if answer.is_err() {
        table.fill(0);
    }
    answer
}
