// What indexing a bundle means: the answers, and what is known of a message on the way to them. The definitions stand in
// specs/; specs/Meaning says in the grammars' relations what a caller gets, and proofs/ that the definitions mean just that. The
// crate `index` has the code.
#![tactic(auto)]

use output::CallError;
use reading::{Found, Refusal, Span};

// How many numbers a table has or needs.
#[derive(Clone, Copy, Debug, PartialEq, Eq)]
pub struct TableSize(pub usize);

// What the table tells of a message: where it is in the text, and what is reported of it.
#[derive(Clone, Copy, Debug, PartialEq, Eq)]
pub struct Entry {
    pub message: Span,
    pub found: Found,
}

// The answer of `index`, by its number.
//   0: the table holds the count and each message's numbers, and then zeros.
//   1 to 9: the table is zeros.
//   10: the table is zeros; the size is what the count and the messages' numbers need.
pub type IndexAnswer = Result<TableSize, CallError<Refusal, TableSize>>;
