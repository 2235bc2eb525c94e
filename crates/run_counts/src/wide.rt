//! Numbers that 128 bits may not hold: sums of squares of sums.
ghost use Rattle.std.specs.Prelude.{◌≡◌, ◌<◌, ◌+◌, ◌*◌, ◌/◌, ◌^◌, nat_le};

use std::marker::Model;

/// How many numbers the low part of a wide number tells apart: 2 to the 64.
const PART: u128 = 18_446_744_073_709_551_616;

/// A number below 2 to the 192. A contract sees it as a number.
#[derive(Drop)]
pub(crate) struct Wide {
    high: u128,
    low: u64,
}

impl Model for Wide {
    ghost use Rattle.std.specs.Prelude.{ℕ, ◌+◌, ◌*◌, ◌^◌};

    ghost Value = { ℕ };

    ghost view = { λ w. w.high * 2 ^ 64 + w.low };
}

impl Wide {
    /// The number 0.
    pub(crate) fn zero() -> Wide
        ensures zero { result ≡ 0 }
    {
        Wide { high: 0, low: 0 }
    }

    /// The number of these two parts, the low one as it comes.
    fn from_parts(high: u128, low: u128) -> Wide
        requires fits { high + low / 2 ^ 64 < 2 ^ 128 }
        ensures number { result ≡ high * 2 ^ 64 + low }
    {
        Wide {
            high: high + low / PART,
            low: (low % PART) as u64,
        }
    }

    /// The square of a number.
    pub(crate) fn square(number: u128) -> Wide
        requires small { number < 2 ^ 84 }
        ensures square { result ≡ number * number }
    {
        let high = number / PART;
        let low = number % PART;
        Wide::from_parts(high * (high * PART + 2 * low), low * low)
    }

    /// This number and another one together.
    pub(crate) fn plus(&self, other: &Wide) -> Wide
        requires fits { self.now + other.now < 2 ^ 192 }
        ensures sum { result ≡ self.now + other.now }
    {
        let low = u128::from(self.low) + u128::from(other.low);
        Wide::from_parts(self.high + other.high, low)
    }

    /// So many times this number.
    pub(crate) fn times(&self, factor: u64) -> Wide
        requires fits { factor * self.now < 2 ^ 192 }
        ensures product { result ≡ factor * self.now }
    {
        let factor = factor as u128;
        Wide::from_parts(factor * self.high, factor * self.low as u128)
    }

    /// Whether this number is another one or less.
    pub(crate) fn is_at_most(&self, other: &Wide) -> bool
        ensures { result ≡ nat_le self.now other.now }
    {
        let (low, most) = (self.low, other.low);
        if self.high != other.high {
            return self.high < other.high;
        }
        low <= most
    }
}
