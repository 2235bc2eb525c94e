//! The weight that a word says.
ghost use Rattle.std.specs.Prelude.{◌≡◌, None};
ghost use Rattle.import_lines.specs.Weights.{bad_weight, weight_of};

use crate::number::{is_negative, is_number, is_whole};
use crate::scaled::scaled_weight;
use crate::weight_fault::WeightFault;

/// What is wrong with a weight that is no whole number.
fn bad_weight(word: &[u8]) -> WeightFault
    ensures { result ≡ bad_weight word.now }
{
    if is_negative(word) {
        WeightFault::Negative
    } else if is_number(word) {
        WeightFault::Decimal
    } else {
        WeightFault::BadWeight
    }
}

/// A weight, and whether it is the number that was said, times the factor, or the nearest whole number to that.
#[derive(Clone, Copy)]
pub struct Weight {
    pub value: u32,
    pub exact: bool,
}

/// The weight that a word says without a factor.
fn whole_weight(word: &str) -> Result<Weight, WeightFault>
    ensures { result ≡ weight_of None word.now }
{
    if !is_whole(word.as_bytes()) {
        return Err(bad_weight(word.as_bytes()));
    }
    match word.parse::<u32>() {
        Ok(value) => Ok(Weight { value, exact: true }),
        Err(_) => Err(WeightFault::WeightTooLarge),
    }
}

/// The weight that a word says. Without a factor the word is a whole number, and the weight is that number, exactly.
///
/// With a factor it is any number, whole or decimal, and the weight is the whole number nearest to that number times
/// the factor, the greater one where two are as near. It is exact where it is that product itself.
///
/// `Negative`, `Decimal`, `BadWeight`, `TooManyDigits` and `WeightTooLarge` come as `WeightFault` says, the first in
/// this order; `Decimal` without a factor alone, `TooManyDigits` with one alone.
pub fn read_weight(word: &str, factor: Option<u32>) -> Result<Weight, WeightFault>
    ensures weight { result ≡ weight_of factor word.now }
{
    match factor {
        Some(factor) => scaled_weight(word, factor),
        None => whole_weight(word),
    }
}
