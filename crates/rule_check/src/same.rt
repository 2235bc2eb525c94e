//! Whether the parts of two programs are equal.

ghost use Rattle.std.specs.Prelude.{◌≡◌, ◌↔◌, IsTrue, map};
ghost use Rattle.rule_check.specs.Shapes.{rule_shape, part_shape};

use crate::code::Instr;
use crate::parts::{Field, Gatherer, Rule};

/// Whether two lists of fields are equal.
pub fn same_fields(xs: &[Field], ys: &[Field]) -> bool
    ensures exact { IsTrue result ↔ (xs.now ≡ ys.now) }
{
    if xs.len() != ys.len() {
        return false;
    }
    for (k, x) in xs.iter().enumerate() {
        if !same_field(x, &ys[k]) {
            return false;
        }
    }
    true
}

/// Whether two lists of aggregates have equal code.
pub fn same_parts(xs: &[Gatherer], ys: &[Gatherer]) -> bool
    ensures exact { IsTrue result ↔ (map part_shape xs.now ≡ map part_shape ys.now) }
{
    if xs.len() != ys.len() {
        return false;
    }
    for (k, x) in xs.iter().enumerate() {
        if !same_part(x, &ys[k]) {
            return false;
        }
    }
    true
}

/// Whether two lists of rules write equal values at equal places.
pub fn same_rules(xs: &[Rule], ys: &[Rule]) -> bool
    ensures exact { IsTrue result ↔ (map rule_shape xs.now ≡ map rule_shape ys.now) }
{
    if xs.len() != ys.len() {
        return false;
    }
    for (k, x) in xs.iter().enumerate() {
        if !same_rule(x, &ys[k]) {
            return false;
        }
    }
    true
}

/// Whether both fields have one name and one initial value.
fn same_field(x: &Field, y: &Field) -> bool
    ensures exact { IsTrue result ↔ (x.now ≡ y.now) }
{
    x.opening == y.opening && x.name.is(y.name.as_str())
}

/// Whether both aggregates are of one kind and have equal code.
fn same_part(x: &Gatherer, y: &Gatherer) -> bool
    ensures exact { IsTrue result ↔ (part_shape x.now ≡ part_shape y.now) }
{
    x.agg == y.agg && same_code(&x.code, &y.code)
}

/// Whether both rules are for one place and have equal code.
fn same_rule(x: &Rule, y: &Rule) -> bool
    ensures exact { IsTrue result ↔ (rule_shape x.now ≡ rule_shape y.now) }
{
    x.field == y.field && same_code(&x.code, &y.code)
}

/// Whether both codes have the same instructions in the same order.
fn same_code(xs: &[Instr], ys: &[Instr]) -> bool
    ensures exact { IsTrue result ↔ (xs.now ≡ ys.now) }
{
    xs == ys
}
