//! Decimal numbers, as whole numbers of small parts.

use app_table::number;
use net_initial::ALL_NODES;
use std::alloc::{AllocError, Global};

/// The greatest chance, in billionths.
const ALL_BILLIONTHS: u32 = 1_000_000_000;

/// The number that so many decimals write, nine at most, of which the last may be left out.
fn fraction(digits: &str, places: usize) -> Option<u32> {
    if digits.len() > places {
        return None;
    }
    let mut value = number(digits, 0, ALL_BILLIONTHS - 1)?;
    for _ in digits.len()..places {
        value = value.checked_mul(10)?;
    }
    Some(value)
}

/// The whole part of a number and its decimals, which are 0 where it has none.
fn parts_of(word: &str) -> (&str, &str) {
    word.split_once('.').unwrap_or((word, "0"))
}

/// The millionths of a percent that a number of percents writes, 100 at most, with six decimals at most.
pub fn share_of(percents: &str) -> Option<u32> {
    let (whole, digits) = parts_of(percents);
    let whole = number(whole, 0, 100)?;
    let rest = fraction(digits, 6)?;
    let share = whole.checked_mul(1_000_000)?.checked_add(rest)?;
    if share > ALL_NODES {
        return None;
    }
    Some(share)
}

/// The billionths that a decimal from 0 to 1 writes, with nine decimals at most.
fn billionths_of(word: &str) -> Option<u32> {
    let (whole, digits) = parts_of(word);
    let whole = number(whole, 0, 1)?;
    let rest = fraction(digits, 9)?;
    let chance = whole.checked_mul(ALL_BILLIONTHS)?.checked_add(rest)?;
    if chance > ALL_BILLIONTHS {
        return None;
    }
    Some(chance)
}

/// The billionths of a chance that a word writes: a decimal from 0 to 1, with nine decimals at most, or percents from 0% to
/// 100%, with six decimals at most.
pub fn chance_of(word: &str) -> Option<u32> {
    match word.strip_suffix('%') {
        Some(percents) => share_of(percents)?.checked_mul(10),
        None => billionths_of(word),
    }
}

/// The decimal of so many billionths, without zeros at its end.
pub fn decimal_of(alloc: Global, billionths: u32) -> Result<String, AllocError> {
    let (whole, rest) = (billionths / ALL_BILLIONTHS, billionths % ALL_BILLIONTHS);
    if rest == 0 {
        return format!(in alloc; "{whole}");
    }
    let padded = ALL_BILLIONTHS + rest;
    let padded = format!(in alloc; "{padded}")?;
    let digits = padded.as_str().strip_prefix('1').unwrap_or("");
    let digits = digits.trim_end_matches('0');
    format!(in alloc; "{whole}.{digits}")
}

/// So many times in so many.
#[derive(Clone, Copy)]
pub struct Portion {
    pub times: u32,
    pub of: u32,
}

/// The share that a number of percents writes, 100 at most, with six decimals at most: in a hundred where it is whole, and
/// in ten times as many for each decimal that is needed.
pub fn percent_of(word: &str) -> Option<Portion> {
    let mut times = share_of(word)?;
    let mut of = ALL_NODES;
    for _ in 0..6 {
        if times % 10 == 0 {
            times /= 10;
            of /= 10;
        }
    }
    Some(Portion { times, of })
}
