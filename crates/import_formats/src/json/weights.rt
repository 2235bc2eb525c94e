//! The weights of links.
ghost use Rattle.std.specs.Prelude.{◌≡◌, option_map};
ghost use Rattle.serde_json.specs.View.{view};
ghost use Rattle.import_formats.specs.json.Graphs.{weight_times, float_weight, other_weight, value_weight, member_weight};

use import_lines::{Weight, WeightFault};
use serde_json::Value;
use std::num::saturating_f64_to_u64;

/// The weight that a whole number times a factor is.
fn weight_times(factor: u32, number: u64) -> Result<Weight, WeightFault>
    ensures { result ≡ weight_times factor number }
{
    let product = factor as u128 * number as u128;
    if product > u32::MAX as u128 {
        return Err(WeightFault::WeightTooLarge);
    }
    Ok(Weight {
        value: product as u32,
        exact: true,
    })
}

/// The weight that is nearest to a decimal number times a factor.
fn float_weight(factor: u32, number: f64) -> Result<Weight, WeightFault>
    ensures { result ≡ float_weight factor number }
{
    if number < 0.0 {
        return Err(WeightFault::Negative);
    }
    let product = number * factor as f64;
    let rounded = product.round();
    let value = saturating_f64_to_u64(rounded);
    if value > u32::MAX as u64 {
        return Err(WeightFault::WeightTooLarge);
    }
    Ok(Weight {
        value: value as u32,
        exact: rounded == product,
    })
}

/// The weight that a value says which is no whole number from 0: a decimal number, where there is a factor.
fn other_weight(factor: Option<u32>, value: &Value) -> Result<Weight, WeightFault>
    ensures { result ≡ other_weight factor (view value.now) }
{
    if value.as_i64().is_some() {
        return Err(WeightFault::Negative);
    }
    match (value.as_f64(), factor) {
        (Some(number), Some(factor)) => float_weight(factor, number),
        (Some(_), None) => Err(WeightFault::Decimal),
        (None, _) => Err(WeightFault::BadWeight),
    }
}

/// The weight that a value says.
fn value_weight(factor: Option<u32>, value: &Value) -> Result<Weight, WeightFault>
    ensures { result ≡ value_weight factor (view value.now) }
{
    if let Some(number) = value.as_u64() {
        return weight_times(factor.unwrap_or(1), number);
    }
    other_weight(factor, value)
}

/// The weight of a link: 1 times the factor where no member says it.
pub(crate) fn member_weight(
    factor: Option<u32>,
    member: Option<&Value>,
) -> Result<Weight, WeightFault>
    ensures { result ≡ member_weight factor (option_map (λ v. view v.now) member.entry) }
{
    match member {
        Some(value) => value_weight(factor, value),
        None => Ok(Weight {
            value: factor.unwrap_or(1),
            exact: true,
        }),
    }
}
