// What the program for the shell is told: the word that names a grammar, and standard input.
#![tactic(auto)]

pub mod choice;
pub mod input;
