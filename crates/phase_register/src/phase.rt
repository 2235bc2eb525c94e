//! Phases.
ghost use Rattle.std.specs.Prelude.{◌≡◌, ℕ, ◌<◌, if◌then◌else◌, nat_lt, Some, None};
ghost use Rattle.phase_register.specs.Phases.{next_phase};

use std::marker::Model;

/// A clock modulo three: its number is 0, 1 or 2.
#[derive(Clone, Copy, Debug, PartialEq, Eq)]
pub struct Phase {
    number: u8,
}

impl Model for Phase {
    ghost use Rattle.std.specs.Prelude.{ℕ, ◌<◌};

    ghost Value = { ℕ };

    ghost view = { λ p. p.number };

    ghost invariant = { λ p. p.number < 3 };

    ghost inverse = { λ n. record { number = n } };
}

impl Phase {
    /// The phase of this number, or none where it is above 2.
    pub fn from_number(number: u8) -> Option<Phase>
        ensures phase { result ≡ (if nat_lt number 3 then Some number else None) }
    {
        if number < 3 {
            Some(Phase { number })
        } else {
            None
        }
    }

    /// The phase's number.
    pub fn number(&self) -> u8
        ensures number { result ≡ self.now }
        ensures below_three { result < 3 }
    {
        self.number
    }

    /// The phase one step on.
    pub fn next(&self) -> Phase
        ensures next { result ≡ next_phase self.now }
    {
        if self.number == 2 {
            Phase { number: 0 }
        } else {
            Phase {
                number: self.number + 1,
            }
        }
    }
}
