//! `--set` and `--set-random`: initial values of nodes.

use crate::arguments::{FLAG, NUMBER};
use crate::decimals::share_of;
use app_files::{VALUE_WORDS, ValueWord};
use app_table::{Argument, Kind, OPTION, Reading, WordsFault, number};
use net_initial::Amount;
use std::alloc::{AllocError, Global};

/// An option that may be given as often as wanted.
pub const REPEATED: Argument = Argument {
    kind: Kind::Repeated,
    ..OPTION
};

pub const SET: Argument = Argument {
    name: "set",
    value_name: "FIELD=NODE:VALUE",
    help: "Give a field of nodes an initial value, a number, none, or the name of a state: NODE is a node, A..B for those from A to B, both included, @FILE for those that a file lists, a line each, or * for all; as often as wanted",
    ..REPEATED
};

/// `SET`, as it is read.
pub(crate) static SET_ARGUMENT: Argument = SET;

pub const SET_RANDOM: Argument = Argument {
    name: "set-random",
    value_name: "FIELD=VALUE:COUNT",
    help: "Give a field of so many nodes, or of a share of all as 5%, drawn by the seed, an initial value, a number, none, or the name of a state; as often as wanted",
    needs: Some("seed"),
    ..REPEATED
};

/// `SET_RANDOM`, as it is read.
pub static SET_RANDOM_ARGUMENT: Argument = SET_RANDOM;

pub const SEED: Argument = Argument {
    name: "seed",
    value: NUMBER,
    value_name: "S",
    help: "The same seed draws the same nodes on every machine",
    needs: Some("set-random"),
    ..OPTION
};

pub const OVERLAP: Argument = Argument {
    name: "overlap",
    help: "Let each of several --set-random draw among all nodes; else no node is drawn twice",
    ..FLAG
};

/// `OVERLAP`, as it is read.
static OVERLAP_ARGUMENT: Argument = OVERLAP;

/// A word of `--set FIELD=NODE:VALUE`.
#[derive(Drop)]
pub struct SetWord {
    pub field: String,
    /// A node's number or name, `A..B` for the nodes from A to B, `@FILE` for those that a file lists, or `*` for all nodes.
    pub node: String,
    pub value: ValueWord,
}

/// A word of `--set-random FIELD=VALUE:COUNT`.
#[derive(Drop)]
pub struct RandomWord {
    pub field: String,
    pub value: ValueWord,
    /// How many nodes are drawn.
    pub amount: Amount,
}

/// How many nodes each word of `--set-random` draws.
pub fn amounts_of(alloc: Global, words: &[RandomWord]) -> Result<Vec<Amount>, AllocError> {
    let mut amounts = Vec::with_capacity(alloc, words.len())?;
    for word in words {
        amounts.push(word.amount)?;
    }
    Ok(amounts)
}

/// The value that a word writes, where it is one.
pub fn value_word(reading: &mut Reading, word: &str) -> Option<ValueWord> {
    match ValueWord::of(reading.alloc(), word) {
        Ok(value) => value,
        Err(_) => {
            reading.refuse(WordsFault::Memory);
            None
        }
    }
}

/// The parts of a word of `--set`: what stands before the first `=`, what follows up to the last colon, and what stands
/// after it.
fn set_parts(word: &str) -> Option<(&str, &str, &str)> {
    let (field, rest) = word.split_once('=')?;
    let (node, value) = rest.rsplit_once(':')?;
    Some((field, node, value))
}

/// Notes that a word of `--set` has not its parts.
fn refuse_set(reading: &mut Reading, word: &str) {
    reading.refuse_as(format!(in reading.alloc();
        "--set: expected FIELD=NODE:VALUE, with {VALUE_WORDS} after the last colon, found `{word}`"
    ));
}

/// The word of `--set`, where it has its parts.
fn set_word(reading: &mut Reading, word: &str) -> Option<SetWord> {
    let (field, node, value) = set_parts(word)?;
    let value = value_word(reading, value)?;
    let field = reading.copied(field);
    let node = reading.copied(node);
    Some(SetWord { field, node, value })
}

/// Puts a word after the others.
fn put_set(sets: &mut Vec<SetWord>, reading: &mut Reading, word: &str) {
    match set_word(reading, word) {
        Some(set) => {
            if sets.push(set).is_err() {
                reading.refuse(WordsFault::Memory);
            }
        }
        None => refuse_set(reading, word),
    }
}

/// The words of `--set`, in their order.
pub fn sets_in(reading: &mut Reading) -> Vec<SetWord> {
    let words = reading.texts(&SET_ARGUMENT);
    let mut sets = Vec::new(reading.alloc());
    for word in &words {
        put_set(&mut sets, reading, word.as_str());
    }
    sets
}

/// How many nodes a word asks for: a number, or a share of all nodes with `%` after it.
fn amount_of(word: &str) -> Option<Amount> {
    if let Some(percents) = word.strip_suffix('%') {
        let share = share_of(percents)?;
        return Some(Amount::Share(share));
    }
    let count = number(word, 0, 4_294_967_295)?;
    Some(Amount::Count(count))
}

/// The parts of a word of `--set-random`.
fn random_parts(word: &str) -> Option<(&str, &str, Amount)> {
    let (field, rest) = word.split_once('=')?;
    let (value, amount) = rest.split_once(':')?;
    let amount = amount_of(amount)?;
    Some((field, value, amount))
}

/// Notes that a word of `--set-random` has not its parts.
fn refuse_random(reading: &mut Reading, word: &str) {
    reading.refuse_as(format!(in reading.alloc();
        "--set-random: expected FIELD=VALUE:COUNT, with {VALUE_WORDS} after the first =, and after the colon a whole number or a share from 0% to 100% with six decimals at most, found `{word}`"
    ));
}

/// The word of `--set-random`, where it has its parts.
fn random_word(reading: &mut Reading, word: &str) -> Option<RandomWord> {
    let (field, value, amount) = random_parts(word)?;
    let value = value_word(reading, value)?;
    let field = reading.copied(field);
    Some(RandomWord {
        field,
        value,
        amount,
    })
}

/// Puts a word after the others.
fn put_random(random: &mut Vec<RandomWord>, reading: &mut Reading, word: &str) {
    match random_word(reading, word) {
        Some(found) => {
            if random.push(found).is_err() {
                reading.refuse(WordsFault::Memory);
            }
        }
        None => refuse_random(reading, word),
    }
}

/// The words of `--set-random`, in their order.
pub fn random_in(reading: &mut Reading) -> Vec<RandomWord> {
    let words = reading.texts(&SET_RANDOM_ARGUMENT);
    let mut random = Vec::new(reading.alloc());
    for word in &words {
        put_random(&mut random, reading, word.as_str());
    }
    random
}

/// Whether each word of `--set-random` draws among all nodes. Refused where no nodes are drawn.
pub fn overlap_in(reading: &mut Reading) -> bool {
    let overlap = reading.has(&OVERLAP_ARGUMENT);
    if overlap && !reading.has(&SET_RANDOM_ARGUMENT) {
        reading.refuse_words(
            "--overlap: no nodes are drawn; give --set-random, or leave --overlap out",
        );
    }
    overlap
}
