//! `generate block`: a network whose nodes stand in blocks, and the chances with which pairs are linked.

use crate::generate_request::Topology;
use app_commands::chance_of;
use app_table::{Argument, Kind, OPTION, Reading, WordsFault, number};
use net_random::BlockChances;
use std::alloc::{AllocError, Global};

pub(crate) const SIZES: Argument = Argument {
    name: "SIZES",
    kind: Kind::Positional,
    value_name: "SIZES",
    help: "The number of nodes of each block, with commas between them, as 400,600",
    ..OPTION
};

/// `SIZES`, as it is read.
static SIZES_ARGUMENT: Argument = SIZES;

pub(crate) const WITHIN: Argument = Argument {
    name: "within",
    kind: Kind::Required,
    value_name: "P",
    help: "The chance with which two nodes of one block are linked, from 0 to 1 with nine decimals at most, or as 5%",
    ..OPTION
};

/// `WITHIN`, as it is read.
static WITHIN_ARGUMENT: Argument = WITHIN;

pub(crate) const BETWEEN: Argument = Argument {
    name: "between",
    help: "The chance with which two nodes of different blocks are linked, as --within",
    ..WITHIN
};

/// `BETWEEN`, as it is read.
static BETWEEN_ARGUMENT: Argument = BETWEEN;

/// Notes that a text is no chance, which an option gives.
fn refuse_chance(reading: &mut Reading, option: &str, found: &str) {
    reading.refuse_as(format!(in reading.alloc();
        "--{option}: expected a decimal from 0 to 1, with nine decimals at most, or percents as 5%, found `{found}`"
    ));
}

/// The chance, in billionths, that an option gives. Where its text is none, an invalid argument is noted.
pub(crate) fn billionths_in(reading: &mut Reading, option: &Argument) -> u32 {
    let found = reading.needed_text(option);
    match chance_of(found.as_str()) {
        Some(billionths) => billionths,
        None => {
            refuse_chance(reading, option.name, found.as_str());
            0
        }
    }
}

/// The numbers between the commas of a text; `None` where one cannot be read.
fn sizes_of(alloc: Global, text: &str) -> Result<Option<Vec<u32>>, AllocError> {
    let mut sizes = Vec::new(alloc);
    for part in text.split(',') {
        let Some(size) = number(part, 0, 4_294_967_295) else {
            return Ok(None);
        };
        sizes.push(size)?;
    }
    Ok(Some(sizes))
}

/// The numbers of nodes of blocks that the words name. Where they name none, an invalid argument is noted.
fn sizes_in(reading: &mut Reading) -> Vec<u32> {
    let found = reading.needed_text(&SIZES_ARGUMENT);
    match sizes_of(reading.alloc(), found.as_str()) {
        Ok(Some(sizes)) => return sizes,
        Ok(None) => reading.refuse_as(format!(in reading.alloc();
            "SIZES: expected whole numbers from 0 to 4294967295 with commas between them, as 400,600, found `{found}`"
        )),
        Err(_) => reading.refuse(WordsFault::Memory),
    }
    Vec::new(reading.alloc())
}

/// A network whose nodes stand in blocks. Where the words name none, an invalid argument is noted.
pub(crate) fn block_in(reading: &mut Reading) -> Topology {
    let sizes = sizes_in(reading);
    let within = billionths_in(reading, &WITHIN_ARGUMENT);
    let between = billionths_in(reading, &BETWEEN_ARGUMENT);
    let chances = BlockChances { within, between };
    Topology::Block { sizes, chances }
}
