//! `--quantiles`: quantiles of runs, in percents.

use app_table::{Argument, OPTION, Reading, WordsFault, number};
use std::alloc::{AllocError, Global};

pub(crate) const QUANTILES: Argument = Argument {
    name: "quantiles",
    value_name: "PERCENTS",
    help: "Beside each mean the quantiles of these percents, as 5,50,95, whole numbers from 0 to 100: the least number that at least so many percent of the runs do not exceed",
    needs: Some("mean"),
    ..OPTION
};

/// `QUANTILES`, as it is read.
static QUANTILES_ARGUMENT: Argument = QUANTILES;

/// What is told where no percents can be read.
fn no_percents(alloc: Global, text: &str) -> WordsFault {
    WordsFault::told(format!(in alloc;
        "--quantiles: expected whole numbers from 0 to 100 between commas, as 5,50,95, found `{text}`"
    ))
}

/// What is told where a percent stands there twice.
fn percent_twice(alloc: Global, percent: u8) -> WordsFault {
    WordsFault::told(format!(in alloc;
        "--quantiles: {percent} stands there twice; a column is shown once"
    ))
}

/// A percent.
fn percent_in(word: &str) -> Option<u8> {
    let percent = number(word, 0, 100)?;
    u8::try_from(percent).ok()
}

/// Puts a percent after the others.
fn put_percent(percents: &mut Vec<u8>, percent: u8) -> Result<(), AllocError> {
    percents.push(percent)?;
    Ok(())
}

/// The percents between commas.
fn percents_in(alloc: Global, text: &str) -> Result<Vec<u8>, WordsFault> {
    let mut percents = Vec::new(alloc);
    for word in text.split(',') {
        let Some(percent) = percent_in(word) else {
            return Err(no_percents(alloc, text));
        };
        if percents.as_slice().contains(&percent) {
            return Err(percent_twice(alloc, percent));
        }
        put_percent(&mut percents, percent)?;
    }
    Ok(percents)
}

/// The percents that are asked for; none where the option is not given.
pub(crate) fn quantiles_in(reading: &mut Reading) -> Vec<u8> {
    let alloc = reading.alloc();
    let Some(text) = reading.text(&QUANTILES_ARGUMENT) else {
        return Vec::new(alloc);
    };
    match percents_in(alloc, text.as_str()) {
        Ok(percents) => percents,
        Err(fault) => {
            reading.refuse(fault);
            Vec::new(alloc)
        }
    }
}
