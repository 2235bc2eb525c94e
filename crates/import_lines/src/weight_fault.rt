//! What is wrong with a word that is to say a weight.
use thiserror::Error;

/// What is wrong with a word that is to say a weight. Where several things are, the first in this order.
#[derive(Clone, Copy, Debug, PartialEq, Eq, Error)]
pub enum WeightFault {
    /// A minus sign before a number, whole or decimal.
    #[error("Negative")]
    Negative,
    /// A decimal number, where no factor is given: digits with a point among them, or with an exponent after them.
    #[error("Decimal")]
    Decimal,
    /// No number.
    #[error("BadWeight")]
    BadWeight,
    /// The digits before the exponent say a number of 2 to the power of 64 or more; with a factor alone.
    #[error("TooManyDigits")]
    TooManyDigits,
    /// The weight is greater than 4,294,967,295.
    #[error("WeightTooLarge")]
    WeightTooLarge,
}
