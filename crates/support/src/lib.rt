// What the programs over the library share.
#![tactic(auto)]

pub mod bytes;
pub mod expand;
pub mod fields;
pub mod lent;
pub mod print;
