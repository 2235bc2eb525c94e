//! In which range aggregates lie.

ghost use Rattle.std.specs.Prelude.{◌≡◌, ◌≤◌, ℕ, All, List, length};
ghost use Rattle.rule_check.specs.Table.{gather};
ghost use Rattle.rule_ranges.specs.Ranges.{IsWithin};

use crate::range::Range;
use rule_lang::Agg;

/// What is at most this number.
pub fn at_most_number(most: u32) -> Range
    ensures exact { result ≡ record { least = 0; most = most } }
    ensures within { (v : ℕ) → v ≤ most → IsWithin result v }
{
    Range { least: 0, most }
}

/// Where an aggregate lies over so many values at most that lie in a range.
pub fn gathered_range(agg: Agg, range: Range, degree: u32) -> Range
    ensures within { (values : List ℕ) → length values ≤ degree → All (IsWithin range) values → IsWithin result (gather agg values) }
{
    match agg {
        Agg::Total => at_most_number(range.most.saturating_mul(degree)),
        Agg::Least => Range {
            least: range.least,
            most: u32::MAX,
        },
        Agg::Most => at_most_number(range.most),
        Agg::Count => at_most_number(degree),
        Agg::Some1 | Agg::Every => at_most_number(1),
    }
}
