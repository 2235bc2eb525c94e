//! From trees to postfix code.

ghost use Rattle.std.specs.Prelude.{◌≡◌, ◌+◌, ◌≤◌, ◌++◌, ◌∷◌, [], false, length, map, OnOk, IfOk};
ghost use Rattle.std.specs.List.{list_any};
ghost use Rattle.rule_lang.specs.View.{tree_of, items_of};
ghost use Rattle.rule_check.specs.Value.{parts};
ghost use Rattle.rule_check.specs.WellFormed.{nests, all_parts};
ghost use Rattle.rule_check.specs.Code.{code_of};
ghost use Rattle.rule_check.specs.Gathering.{numbered};
ghost use Rattle.rule_check.specs.Items.{fields_of, nexts_of};
ghost use Rattle.rule_check.specs.Shapes.{rule_shape, part_shape};
ghost use Rattle.rule_check.specs.Compiled.{rule_code, part_code};
ghost use Rattle.rule_check.specs.Fields.{field_names};

use crate::code::Instr;
use crate::parts::{Field, Gatherer, Name, Rule};
use crate::well_formed::place_of;
use rule_lang::{Expr, Item};
use std::alloc::{AllocError, Global};

/// The declared fields.
pub fn collect_fields(alloc: Global, items: &[Item]) -> Result<Vec<Field>, AllocError>
    ensures exact { IfOk result (λ v. v.items ≡ fields_of (items_of items.now)) }
{
    let mut fields = Vec::new(alloc);
    for item in items {
        if let Item::Field { name, value } = item {
            let name = Name::new(alloc, name.as_str())?;
            fields.push(Field {
                name,
                opening: *value,
            })?;
        }
    }
    Ok(fields)
}

/// The code of each aggregate.
pub fn collect_parts(
    alloc: Global,
    fields: &[Field],
    items: &[Item],
) -> Result<Vec<Gatherer>, AllocError>
    requires few { length fields.now ≤ 8 }
    requires flat { list_any (λ n. nests n.body) (nexts_of (items_of items.now)) ≡ false }
    ensures exact { IfOk result (λ v. map part_shape v.items
        ≡ map (part_code (field_names fields.now)) (all_parts (nexts_of (items_of items.now)))) }
{
    let mut gatherers = Vec::new(alloc);
    for item in items {
        if let Item::Next { body, .. } = item {
            emit_parts(alloc, &mut gatherers, fields, body)?;
        }
    }
    Ok(gatherers)
}

/// The code of each next item.
pub fn collect_rules(
    alloc: Global,
    fields: &[Field],
    items: &[Item],
) -> Result<Vec<Rule>, AllocError>
    requires few { length fields.now ≤ 8 }
    requires sums { length (all_parts (nexts_of (items_of items.now))) ≤ 16 }
    ensures exact { IfOk result (λ v. map rule_shape v.items
        ≡ map (rule_code (field_names fields.now)) (numbered 0 (nexts_of (items_of items.now)))) }
{
    let mut rules = Vec::new(alloc);
    let mut first = 0;
    for item in items {
        if let Item::Next { name, body } = item {
            let mut code = Vec::new(alloc);
            first = emit(&mut code, fields, body, first)?;
            let field = place_of(fields, name.as_str()) as u32;
            rules.push(Rule { field, code })?;
        }
    }
    Ok(rules)
}

/// The code of an expression whose aggregates are numbered from `first` on; the answer is the
/// number after them.
fn emit(code: &mut Vec<Instr>, fields: &[Field], e: &Expr, first: u32) -> Result<u32, AllocError>
    requires few { length fields.now ≤ 8 }
    requires sums { first + length (parts (tree_of e.now)) ≤ 16 }
    ensures code { OnOk result (code.new.items ≡ code.old.items ++ code_of (field_names fields.now) (tree_of e.now) first) }
    ensures next { IfOk result (λ n. n ≡ first + length (parts (tree_of e.now))) }
{
    match e {
        Expr::Number(n) => put(code, Instr::Push(*n), first),
        Expr::Own(name) => {
            let place = place_of(fields, name.as_str()) as u32;
            put(code, Instr::OwnWord(place), first)
        }
        Expr::Id => put(code, Instr::NodeId, first),
        Expr::Degree => put(code, Instr::NodeDegree, first),
        Expr::Round => put(code, Instr::NodeRound, first),
        Expr::Near(name) => {
            let place = place_of(fields, name.as_str()) as u32;
            put(code, Instr::NearWord(place), first)
        }
        Expr::NearId => put(code, Instr::NearId, first),
        Expr::NearWeight => put(code, Instr::NearWeight, first),
        Expr::Infix(op, a, b) => {
            let next = emit(code, fields, a, first)?;
            let next = emit(code, fields, b, next)?;
            put(code, Instr::Apply(*op), next)
        }
        Expr::Not(e) => {
            let next = emit(code, fields, e, first)?;
            put(code, Instr::Negate, next)
        }
        Expr::Over(_, _) => put(code, Instr::SumWord(first), first + 1),
        Expr::Choice(a, b, c) => {
            let next = emit(code, fields, a, first)?;
            let next = emit(code, fields, b, next)?;
            let next = emit(code, fields, c, next)?;
            put(code, Instr::Pick, next)
        }
    }
}

/// One instruction more; the answer is `next`.
fn put(code: &mut Vec<Instr>, instr: Instr, next: u32) -> Result<u32, AllocError>
    ensures code { OnOk result (code.new.items ≡ code.old.items ++ instr ∷ []) }
    ensures next { IfOk result (λ n. n ≡ next) }
{
    code.push(instr)?;
    Ok(next)
}

/// The code of an expression's aggregates.
fn emit_parts(
    alloc: Global,
    gatherers: &mut Vec<Gatherer>,
    fields: &[Field],
    e: &Expr,
) -> Result<(), AllocError>
    requires few { length fields.now ≤ 8 }
    requires flat { nests (tree_of e.now) ≡ false }
    ensures exact { OnOk result (map part_shape gatherers.new.items
        ≡ map part_shape gatherers.old.items ++ map (part_code (field_names fields.now)) (parts (tree_of e.now))) }
{
    match e {
        Expr::Number(_)
        | Expr::Own(_)
        | Expr::Id
        | Expr::Degree
        | Expr::Round
        | Expr::Near(_)
        | Expr::NearId
        | Expr::NearWeight => Ok(()),
        Expr::Infix(_, a, b) => {
            emit_parts(alloc, gatherers, fields, a)?;
            emit_parts(alloc, gatherers, fields, b)
        }
        Expr::Not(e) => emit_parts(alloc, gatherers, fields, e),
        Expr::Over(agg, e) => {
            let mut code = Vec::new(alloc);
            emit(&mut code, fields, e, 0)?;
            gatherers.push(Gatherer { agg: *agg, code })?;
            Ok(())
        }
        Expr::Choice(a, b, c) => {
            emit_parts(alloc, gatherers, fields, a)?;
            emit_parts(alloc, gatherers, fields, b)?;
            emit_parts(alloc, gatherers, fields, c)
        }
    }
}
