//! How many of many numbers are each of some values.
ghost use Rattle.std.specs.Prelude.{◌≡◌, ◌==◌, ◌++◌, ◌+◌, ◌<◌, ◌^◌, length, count_by, OnOk};
ghost use Rattle.app_calls.specs.Counted.{counted, is_in};

use std::alloc::AllocError;

/// How many of the numbers are this one.
fn count_of(numbers: &[u32], value: u32) -> usize
    ensures count { result ≡ count_by (λ n. n == value) numbers.now }
{
    let mut count = 0;
    for number in numbers {
        if *number == value {
            count += 1;
        }
    }
    count
}

/// Whether a value is one of these.
fn is_in(values: &[u32], value: u32) -> bool
    ensures { result ≡ is_in values.now value }
{
    values.iter().any(|other| value == *other)
}

/// Appends how many of the numbers are each of the values, and last how many are none of them.
pub(crate) fn add_counts(
    words: &mut Vec<u32>,
    numbers: &[u32],
    values: &[u32],
) -> Result<(), AllocError>
    requires few { length numbers.now < 2 ^ 32 }
    ensures added { OnOk result (words.new.items ≡ words.old.items ++ counted values.now numbers.now) }
    ensures count { OnOk result (length (counted values.now numbers.now) ≡ length values.now + 1) }
{
    let mut others = numbers.len();
    for (place, value) in values.iter().enumerate() {
        let count = count_of(numbers, *value);
        if !is_in(&values[..place], *value) {
            others -= count;
        }
        words.push(count as u32)?;
    }
    words.push(others as u32)?;
    Ok(())
}
