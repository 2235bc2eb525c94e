//! The weight nearest to a quotient.
ghost use Rattle.std.specs.Prelude.{◌≡◌, ◌<◌, ◌*◌, ◌^◌};
ghost use Rattle.import_lines.specs.Weights.{fitting, weight_near};

use crate::weight::Weight;
use crate::weight_fault::WeightFault;

/// A weight, where it is not too large.
fn fitting(value: u128, exact: bool) -> Result<Weight, WeightFault>
    ensures { result ≡ fitting value exact }
{
    if value > u32::MAX as u128 {
        return Err(WeightFault::WeightTooLarge);
    }
    Ok(Weight {
        value: value as u32,
        exact,
    })
}

/// The weight that is a number times a power of ten.
fn raised(number: u128, power: u128) -> Result<Weight, WeightFault>
    requires { number < 2 ^ 96 }
    ensures { result ≡ weight_near (number * 10 ^ power) 1 }
{
    if number == 0 {
        return Ok(Weight {
            value: 0,
            exact: true,
        });
    }
    if power >= 10 {
        return Err(WeightFault::WeightTooLarge);
    }
    fitting(number * 10u128.pow(power as u32), true)
}

/// The weight nearest to a number divided by a power of ten.
fn lowered(number: u128, power: u128) -> Result<Weight, WeightFault>
    requires { number < 2 ^ 96 }
    ensures { result ≡ weight_near number (10 ^ power) }
{
    if power >= 30 {
        return Ok(Weight {
            value: 0,
            exact: number == 0,
        });
    }
    let part = 10u128.pow(power as u32);
    fitting((2 * number + part) / (2 * part), number % part == 0)
}

/// The weight nearest to a number times a power of ten and divided by a power of ten.
pub(crate) fn shifted(number: u128, up: u128, down: u128) -> Result<Weight, WeightFault>
    requires { number < 2 ^ 96 }
    ensures { result ≡ weight_near (number * 10 ^ up) (10 ^ down) }
{
    if down <= up {
        raised(number, up - down)
    } else {
        lowered(number, down - up)
    }
}
