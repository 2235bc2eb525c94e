//! Why links get no weights.
ghost use Rattle.std.specs.Prelude.{◌≡◌};
ghost use Rattle.net_random.specs.declared.weight_fault.WeightFault.TheVariants.{Memory};

use std::alloc::AllocError;
use thiserror::Error;

/// Why links get no weights.
#[derive(Clone, Copy, Debug, PartialEq, Eq, Error)]
pub enum WeightFault {
    /// The least weight is above the greatest one.
    #[error("NoWeight")]
    NoWeight,
    /// Memory ran out.
    #[error("Memory")]
    Memory,
}

impl From<AllocError> for WeightFault {
    ghost from_gives = { λ _ e. e ≡ Memory };

    fn from(_error: AllocError) -> WeightFault {
        WeightFault::Memory
    }
}
