// Prints what a bundle holds: `pem_index GRAMMAR < FILE`.
//
// The grammar is lax, standard, strict or a number, and lax where it is left out. Standard input is indexed as a whole, and
// each message gets a line: start, length, label and data size. A refusal is one line: number and place; more than 65,536 bytes
// are a text that is too long. What keeps the program from its work is one line that starts with its name.
#![tactic(auto)]

mod listing;

use grammar::Grammar;
use reading::Refusal;
use shell::input::InputError;
use shell::{choice, input};
use std::env::{Env, FillError};
use std::io;
use std::io::{Read, Write};
use support::lent;
use support::lent::Answer;

// One byte more than the program takes, so that a longer input is seen to be too long.
const TEXT_SIZE: usize = 65537;

// No word that names a grammar is longer: a name has eight letters at most, a number nine digits.
const WORD_SIZE: usize = 9;

fn index(writer: &mut impl Write, text: &[u8], grammar: u32) -> io::Result<()> {
    let mut table = [0; lent::TABLE_SIZE];
    let answer = Answer::of(|report| zullifern::zullifern_index(text, grammar, &mut table, report));
    if answer.number == 0 {
        listing::messages(writer, text, &table)
    } else {
        listing::refusal(writer, answer.number, answer.place())
    }
}

fn refuse(writer: &mut impl Write, refusal: Refusal) -> io::Result<()> {
    listing::refusal(writer, refusal.number(), refusal.place())
}

fn index_input(writer: &mut impl Write, stdin: &mut impl Read, grammar: u32) -> io::Result<()> {
    let mut space = [0; TEXT_SIZE];
    match input::read(stdin, &mut space) {
        Ok(text) => index(writer, text, grammar),
        Err(InputError::TooLong) => refuse(writer, input::long_refusal(grammar)),
        Err(InputError::Unreadable) => {
            writer.write_all(b"pem_index: standard input cannot be read\n")
        }
    }
}

// The grammar that the only argument names, or lax where there is none.
fn chosen(env: &impl Env) -> Option<u32> {
    let mut word = [0; WORD_SIZE];
    if !matches!(env.arg(2, &mut word), Err(FillError::NotPresent)) {
        return None;
    }
    match env.arg(1, &mut word) {
        Ok(n) => choice::of(&word[..n]),
        Err(FillError::NotPresent) => Some(Grammar::LAX),
        Err(FillError::TooLong) => None,
    }
}

fn run(writer: &mut impl Write, stdin: &mut impl Read, env: &impl Env) -> io::Result<()> {
    match chosen(env) {
        Some(grammar) => index_input(writer, stdin, grammar),
        None => writer.write_all(
            b"pem_index: give one grammar (lax, standard, strict or a number) and the text on standard input\n",
        ),
    }
}

// What was written tells how it went, so the status is always 0, also where standard output cannot be written.
fn main(rt: HostRuntime) {
    let _ = run(&mut io::writer(&rt), &mut rt.stdin(), &rt);
}
