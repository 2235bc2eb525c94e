//! The values that occur in rounds.
ghost use Rattle.std.specs.Prelude.{◌≡◌, ◌++◌, IfOk, OnOk, map};
ghost use Rattle.std.specs.List.{flat_map, range_with_len};
ghost use Rattle.run_counts.specs.Ensembles.{rows_in};
ghost use Rattle.run_counts.specs.Rows.{AreOnce, AreValues, count_in, keys_of};

use crate::runs::Run;
use crate::table::Row;
use std::alloc::{AllocError, Global};

/// Puts the values that are counted after the others.
fn put_keys(keys: &mut Vec<u32>, counts: &[(u32, u64)]) -> Result<(), AllocError>
    ensures keys { OnOk result (keys.new.items ≡ keys.old.items ++ map (λ c. c.0) counts.now) }
{
    for count in counts {
        keys.push(count.0)?;
    }
    Ok(())
}

/// Puts the values that occur in each of the rounds after the others, one round after the other.
fn put_all_keys(keys: &mut Vec<u32>, rows: &[Row]) -> Result<(), AllocError>
    ensures keys { OnOk result (keys.new.items ≡ keys.old.items ++ flat_map keys_of rows.now) }
{
    for row in rows {
        put_keys(keys, row.counts())?;
    }
    Ok(())
}

/// The states, of which there are so many.
fn states_of(alloc: Global, states: u32) -> Result<Vec<u32>, AllocError>
    ensures states { IfOk result (λ keys. keys.items ≡ range_with_len 0 states) }
{
    let mut keys = Vec::new(alloc);
    for state in 0..states {
        keys.push(state)?;
    }
    Ok(keys)
}

/// Puts the values that occur in the rounds of each of the runs after the others, one run after the other.
fn put_run_keys(keys: &mut Vec<u32>, runs: &[Run<'_>]) -> Result<(), AllocError>
    ensures keys { OnOk result (keys.new.items ≡ keys.old.items ++ flat_map (λ run. flat_map keys_of run.rows) runs.now) }
{
    for run in runs {
        put_all_keys(keys, run.rows())?;
    }
    Ok(())
}

/// The numbers by rising number, each once.
fn once(mut numbers: Vec<u32>) -> Result<Vec<u32>, AllocError>
    ensures once { IfOk result (λ values. AreOnce numbers.items values.items) }
{
    numbers.sort()?;
    numbers.dedup();
    Ok(numbers)
}

/// The states, of which there are so many, and the values that occur in one of the rounds, by rising number.
pub fn values_of(alloc: Global, states: u32, rows: &[Row]) -> Result<Vec<u32>, AllocError>
    ensures values { IfOk result (λ values. AreValues states rows.now values.items) }
{
    let mut keys = states_of(alloc, states)?;
    put_all_keys(&mut keys, rows)?;
    once(keys)
}

/// The states, of which there are so many, and the values that occur in one of the rounds of one of the runs, by rising
/// number.
pub(crate) fn values_in(
    alloc: Global,
    states: u32,
    runs: &[Run<'_>],
) -> Result<Vec<u32>, AllocError>
    ensures values { IfOk result (λ values. AreValues states (rows_in runs.now) values.items) }
{
    let mut keys = states_of(alloc, states)?;
    put_run_keys(&mut keys, runs)?;
    once(keys)
}

/// How many nodes have a value, where these are the counts of those that occur: 0 where it is not among them.
pub fn count_in(counts: &[(u32, u64)], value: u32) -> u64
    ensures count { result ≡ count_in counts.now value }
{
    for count in counts {
        if count.0 == value {
            return count.1;
        }
    }
    0
}
