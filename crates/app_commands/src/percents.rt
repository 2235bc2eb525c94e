//! Shares in percents, with `%` after them.
ghost use Rattle.std.specs.Prelude.{◌≤◌, IfSome};

use crate::decimals::share_of;
use app_table::{Argument, Draft, Reading, number};
use net_initial::ALL_NODES;
use std::alloc::{AllocError, Global};

/// One percent, in millionths of a percent.
const ONE_PERCENT: u32 = 1_000_000;

/// Adds millionths of a percent as a number of percents, without zeros at its end.
fn put_percents(draft: &mut Draft, millionths: u32) {
    draft.put_count((millionths / ONE_PERCENT) as u64);
    let mut left = millionths % ONE_PERCENT;
    for unit in [100_000, 10_000, 1_000, 100, 10, 1] {
        if left == 0 {
            return;
        }
        draft.put(if unit == 100_000 { "." } else { "" });
        draft.put_count(left.checked_div(unit).unwrap_or(0) as u64);
        left = left.checked_rem(unit).unwrap_or(0);
    }
}

/// What is told of a number without `%`: how it is written where it is percents, and how where it is a share from 0 to 1,
/// in millionths of a percent.
fn bare_share(
    alloc: Global,
    option: &str,
    found: &str,
    share: Option<u32>,
) -> Result<String, AllocError> {
    let mut draft = Draft::new(alloc);
    draft.put("--");
    draft.put(option);
    draft.put(": percents have % after them, so that `");
    draft.put(found);
    draft.put("` is not taken for another share: write ");
    draft.put(found);
    draft.put("%");
    if let Some(millionths) = share {
        draft.put(", or ");
        put_percents(&mut draft, millionths);
        draft.put("% for the share ");
        draft.put(found);
    }
    draft.end()
}

/// What is told of a text that is no share with six decimals at most.
pub fn no_share(alloc: Global, option: &str, found: &str) -> Result<String, AllocError> {
    if let Some(millionths) = share_of(found) {
        let share = if millionths <= ONE_PERCENT {
            Some(millionths.saturating_mul(100))
        } else {
            None
        };
        return bare_share(alloc, option, found, share);
    }
    format!(in alloc;
        "--{option}: expected a share from 0% to 100%, with six decimals at most, found `{found}`"
    )
}

/// What is told of a text that is no whole number of percents up to the most.
fn no_percents(alloc: Global, option: &str, most: u32, found: &str) -> Result<String, AllocError> {
    if number(found, 0, most).is_some() {
        let share = match number(found, 1, most / 100) {
            Some(_) => Some(ALL_NODES),
            None => None,
        };
        return bare_share(alloc, option, found, share);
    }
    format!(in alloc; "--{option}: expected whole percents from 0% to {most}%, found `{found}`")
}

/// The whole number of percents, up to the most, that a text writes; where `%` is left out, 0 alone.
fn percents_of(word: &str, most: u32) -> Option<u32>
    ensures within { IfSome result (λ percents. percents ≤ most) }
{
    match word.strip_suffix('%') {
        Some(percents) => number(percents, 0, most),
        None => {
            let _ = number(word, 0, 0)?;
            Some(0)
        }
    }
}

/// The whole number of percents of an option. Where its text writes none up to the most, an invalid argument is noted.
pub fn whole_percents(reading: &mut Reading, argument: &Argument, most: u32) -> Option<u32>
    ensures within { IfSome result (λ percents. percents ≤ most) }
{
    let found = reading.text(argument)?;
    let percents = percents_of(found.as_str(), most);
    if percents.is_none() {
        let told = no_percents(reading.alloc(), argument.name, most, found.as_str());
        reading.refuse_as(told);
    }
    percents
}
