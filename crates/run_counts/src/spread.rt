//! The mean and the standard deviation of numbers, in ten-thousandths.
ghost use Rattle.std.specs.Prelude.{◌≡◌, ◌≤◌, ◌<◌, ◌^◌, ◌+◌, ◌*◌, ◌/◌, ◌++◌, OnOk, length, map, string_bytes, sum};
ghost use Rattle.run_counts.specs.Ensembles.{most_runs};
ghost use Rattle.run_counts.specs.Spread.{deviation_of, four_digits, mean_of, root, square_off, squares_off};

use crate::wide::Wide;
use std::alloc::AllocError;

/// The step before the first one by which a root is raised: 2 to the 79, which is above all roots.
const FIRST_STEP: u128 = 604_462_909_807_314_587_353_088;

/// How often the step is halved until it is 1.
const HALVINGS: u32 = 79;

/// The sum of the numbers.
fn sum_of(numbers: &[u64]) -> u128
    requires few { length numbers.now ≤ most_runs }
    ensures sum { result ≡ sum numbers.now }
    ensures small { result ≤ length numbers.now * 2 ^ 64 }
{
    let mut total: u128 = 0;
    for number in numbers {
        total += u128::from(*number);
    }
    total
}

/// The mean, to the nearest ten-thousandth.
pub(crate) fn mean_of(numbers: &[u64]) -> u128
    requires some { 1 ≤ length numbers.now }
    requires few { length numbers.now ≤ most_runs }
    ensures mean { result ≡ mean_of numbers.now }
{
    let count = numbers.len() as u128;
    (20_000 * sum_of(numbers) + count) / (2 * count)
}

/// The square of how far a number is off the mean of so many numbers with this sum, all times how many they are.
fn square_off(count: u64, sum: u128, number: u64) -> Wide
    requires few { count ≤ most_runs }
    requires sum { sum ≤ count * 2 ^ 64 }
    ensures square { result ≡ square_off count sum number }
    ensures small { result ≤ (count * 2 ^ 64) * (count * 2 ^ 64) }
{
    let off = (u128::from(count) * u128::from(number)).abs_diff(sum);
    Wide::square(off)
}

/// The sum of the squares of how far numbers are off.
fn squares_of(numbers: &[u64], count: u64, total: u128) -> Wide
    requires few { count ≤ most_runs }
    requires all { length numbers.now ≤ count }
    requires total { total ≤ count * 2 ^ 64 }
    ensures squares { result ≡ sum (map (square_off count total) numbers.now) }
    ensures small { result ≤ length numbers.now * ((count * 2 ^ 64) * (count * 2 ^ 64)) }
{
    let mut squares = Wide::zero();
    for number in numbers {
        squares = squares.plus(&square_off(count, total, *number));
    }
    squares
}

/// The sum of the squares of how far the numbers are off their mean.
fn squares_off(numbers: &[u64]) -> Wide
    requires few { length numbers.now ≤ most_runs }
    ensures squares { result ≡ squares_off numbers.now }
    ensures small { result ≤ length numbers.now * ((length numbers.now * 2 ^ 64) * (length numbers.now * 2 ^ 64)) }
{
    squares_of(numbers, numbers.len() as u64, sum_of(numbers))
}

/// A root that is raised by a step where the square of the higher one, times the divisor, is a number at most.
fn raised(root: u128, step: u128, divisor: u64, number: &Wide) -> u128
    requires few { divisor < 2 ^ 30 }
    requires most { root + step ≤ 2 ^ 79 }
    requires reached { divisor * (root * root) ≤ number.now }
    requires above { number.now < divisor * ((root + 2 * step) * (root + 2 * step)) }
    ensures most { result ≤ root + step }
    ensures reached { divisor * (result * result) ≤ number.now }
    ensures above { number.now < divisor * ((result + step) * (result + step)) }
{
    let higher = root + step;
    if Wide::square(higher).times(divisor).is_at_most(number) {
        return higher;
    }
    root
}

/// The square root of a quotient, rounded down: it is raised by steps that are halved, the last of which is 1.
fn root_of(number: &Wide, divisor: u64) -> u128
    requires divisor { 1 ≤ divisor }
    requires few { divisor < 2 ^ 30 }
    requires small { number.now < divisor * 2 ^ 158 }
    ensures root { result ≡ root (number.now / divisor) }
    ensures small { result < 2 ^ 79 }
{
    let mut root: u128 = 0;
    let mut step: u128 = FIRST_STEP;
    for _halving in 0..HALVINGS {
        step /= 2;
        root = raised(root, step, divisor, number);
    }
    root
}

/// The standard deviation of the sample, to the nearest ten-thousandth.
pub(crate) fn deviation_of(numbers: &[u64]) -> u128
    requires several { 2 ≤ length numbers.now }
    requires few { length numbers.now ≤ most_runs }
    ensures deviation { result ≡ deviation_of numbers.now }
{
    let count = numbers.len() as u64;
    let squares = squares_off(numbers).times(400_000_000);
    (root_of(&squares, count * count * (count - 1)) + 1) / 2
}

/// A number of ten-thousandths as a decimal with four digits after the point.
pub(crate) fn put_four_digits(out: &mut String, number: u128) -> Result<(), AllocError>
    ensures text { OnOk result (string_bytes out.new ≡ string_bytes out.old ++ four_digits number) }
{
    let whole = number / 10_000;
    let first = number / 1000 % 10;
    let second = number / 100 % 10;
    let third = number / 10 % 10;
    let last = number % 10;
    write!(out, "{whole}.{first}{second}{third}{last}")
}
