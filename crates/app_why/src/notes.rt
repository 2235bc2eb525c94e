//! What is accepted, and rarely meant.
ghost use Rattle.std.specs.Prelude.{option_map, IfOk};
ghost use Rattle.app_why.specs.Given.{report_of};
ghost use Rattle.app_why.specs.Notes.{AreNotedIn, IsRunOf};

use crate::cut_notes::put_cut_notes;
use crate::finding::report_text;
use crate::limits::limits_by;
use crate::told::Texts;
use app_jobs::{plan_from, program_of};
use link_net::{NetFile, read_network};
use rounds_plan::Plan;
use rule_lang::{Agg, Expr, Item, Op};
use std::alloc::{AllocError, Global};

/// Whether an expression can differ between nodes whose states and neighbours' states are alike.
fn tells_apart(expr: &Expr) -> bool {
    match expr {
        Expr::Id | Expr::Degree | Expr::NearId | Expr::NearWeight => true,
        Expr::Over(Agg::Total | Agg::Count, _) => true,
        Expr::Number(_) | Expr::Own(_) | Expr::Round | Expr::Near(_) => false,
        Expr::Not(part) | Expr::Over(_, part) => tells_apart(part),
        Expr::Infix(_, left, right) => tells_apart(left) || tells_apart(right),
        Expr::Choice(test, yes, no) => tells_apart(test) || tells_apart(yes) || tells_apart(no),
    }
}

/// Whether an expression has a field of this name, of the node or of a neighbour.
fn reads(expr: &Expr, name: &str) -> bool {
    match expr {
        Expr::Own(field) | Expr::Near(field) => field.as_str() == name,
        Expr::Number(_) | Expr::Id | Expr::Degree | Expr::Round | Expr::NearId | Expr::NearWeight =>
            false,
        Expr::Not(part) | Expr::Over(_, part) => reads(part, name),
        Expr::Infix(_, left, right) => reads(left, name) || reads(right, name),
        Expr::Choice(test, yes, no) => reads(test, name) || reads(yes, name) || reads(no, name),
    }
}

/// Whether the value is 1 where something holds, and else 0.
fn is_test(expr: &Expr) -> bool {
    match expr {
        Expr::Infix(op, _, _) => matches!(
            op,
            Op::Equal | Op::Differ | Op::Less | Op::LessEq | Op::Greater | Op::GreaterEq
        ),
        Expr::Not(_) | Expr::Over(Agg::Some1 | Agg::Every, _) => true,
        _ => false,
    }
}

/// Whether the expression is a number above 1.
fn is_large(expr: &Expr) -> bool {
    match expr {
        Expr::Number(value) => *value > 1,
        _ => false,
    }
}

/// Whether the operator is `&` or `|`, and one part a test and the other a number above 1.
fn mixes_parts(op: &Op, left: &Expr, right: &Expr) -> bool {
    if !matches!(op, Op::BitAnd | Op::BitOr) {
        return false;
    }
    is_test(left) && is_large(right) || is_large(left) && is_test(right)
}

/// Whether `&` or `|` stands between a test and a number above 1.
fn mixes(expr: &Expr) -> bool {
    match expr {
        Expr::Infix(op, left, right) => mixes_parts(op, left, right) || mixes(left) || mixes(right),
        Expr::Not(part) | Expr::Over(_, part) => mixes(part),
        Expr::Choice(test, yes, no) => mixes(test) || mixes(yes) || mixes(no),
        _ => false,
    }
}

/// Whether some rule has `&` or `|` between a test and a number above 1.
fn some_mixes(items: &[Item]) -> bool {
    for item in items {
        if let Item::Next { body, .. } = item {
            if mixes(body) {
                return true;
            }
        }
    }
    false
}

/// Whether some rule can tell nodes apart whose states are alike.
fn some_tells_apart(items: &[Item]) -> bool {
    for item in items {
        if let Item::Next { body, .. } = item {
            if tells_apart(body) {
                return true;
            }
        }
    }
    false
}

/// Whether some rule changes the field of this name, or reads it.
fn is_used(items: &[Item], field: &str) -> bool {
    for item in items {
        if let Item::Next { name, body } = item {
            if name.as_str() == field || reads(body, field) {
                return true;
            }
        }
    }
    false
}

/// Whether some rule changes the field of this name.
fn is_changed(items: &[Item], field: &str) -> bool {
    for item in items {
        if let Item::Next { name, .. } = item {
            if name.as_str() == field {
                return true;
            }
        }
    }
    false
}

/// The first field that some rule changes, or the first one at all, with the number with which it opens.
fn first_field(items: &[Item]) -> Option<(&str, u32)> {
    let mut first = None;
    for item in items {
        if let Item::Field { name, value } = item {
            let field = Some((name.as_str(), *value));
            if is_changed(items, name.as_str()) {
                return field;
            }
            first = first.or(field);
        }
    }
    first
}

/// Adds a note for each field that no rule changes and none reads.
fn put_unused(out: &mut String, items: &[Item]) -> Result<(), AllocError> {
    for item in items {
        if let Item::Field { name, .. } = item {
            if !is_used(items, name.as_str()) {
                write!(
                    out,
                    "note: the field `{name}` is changed by no rule and read by none\n"
                )?;
            }
        }
    }
    Ok(())
}

/// Adds the notes on a program.
fn put_program_notes(out: &mut String, items: &[Item]) -> Result<(), AllocError> {
    if items.is_empty() {
        return out.push_str("note: the program has no items, and its nodes no fields\n");
    }
    put_unused(out, items)?;
    if some_mixes(items) {
        out.push_str(
            "note: `&` or `|` stands between a test, which is 0 or 1, and a number above 1: it goes bit by bit\n",
        )?;
    }
    Ok(())
}

/// What the network file describes, which was read before, where there is one.
fn file_in(alloc: Global, texts: &Texts) -> Result<Option<NetFile>, AllocError> {
    let Some(named) = texts.network else {
        return Ok(None);
    };
    match read_network(alloc, named.text) {
        Ok(file) => Ok(Some(file)),
        Err(_) => Err(AllocError),
    }
}

/// Whether a network file sets no field of any node.
fn sets_nothing(file: &NetFile) -> bool {
    for set in file.sets() {
        if !set.pairs.as_slice().is_empty() {
            return false;
        }
    }
    true
}

/// Whether all nodes stay alike: the texts set nothing, and the program never tells nodes apart.
fn stay_alike(texts: &Texts, file: &Option<NetFile>, items: &[Item]) -> bool {
    match (file, texts.report) {
        (Some(file), None) if !items.is_empty() && !some_tells_apart(items) => sets_nothing(file),
        _ => false,
    }
}

/// Adds the note that all nodes stay alike, with an initial value that tells one of them apart.
fn put_alike(out: &mut String, items: &[Item]) -> Result<(), AllocError> {
    let Some((name, value)) = first_field(items) else {
        return Ok(());
    };
    let other = if value == 0 { 1 } else { 0 };
    write!(
        out,
        "note: all nodes have the same initial values and the program never tells them apart: set a field in the network, as in [set] and {name} = [[0, {other}]]\n"
    )
}

/// The plan of the texts, which were read before, where they have a network.
fn plan_in(alloc: Global, texts: &Texts) -> Result<Option<Plan>, AllocError>
    ensures run { IfOk result (IsRunOf texts.now.program.text.now (option_map (λ named. named.text.now) texts.now.network) (report_of texts.now)) }
{
    let Some(network) = texts.network else {
        return Ok(None);
    };
    match plan_from(alloc, texts.program.text, network.text, report_text(texts)) {
        Ok(plan) => Ok(Some(plan)),
        Err(_) => Err(AllocError),
    }
}

/// What is told where nothing refuses a job.
#[derive(Drop)]
pub(crate) struct Noted {
    pub(crate) text: String,
    /// The places of the products and totals that are noted as ones that can be cut.
    pub(crate) cuts: Vec<usize>,
}

/// What is told where nothing refuses a job: that it is so, and notes on what is accepted and rarely meant.
pub(crate) fn notes(alloc: Global, texts: &Texts) -> Result<Noted, AllocError>
    ensures noted { IfOk result (λ notes. AreNotedIn texts.now notes.cuts.items) }
{
    let mut out = String::from_str(alloc, "nothing is wrong\n")?;
    let Ok((source, program)) = program_of(alloc, texts.program.text) else {
        return Err(AllocError);
    };
    let plan = plan_in(alloc, texts)?;
    put_program_notes(&mut out, source.items())?;
    let limits = limits_by(alloc, &program, &plan)?;
    let cuts = put_cut_notes(
        alloc,
        &mut out,
        texts.program,
        source.items(),
        &limits,
        plan.is_some(),
    )?;
    let file = file_in(alloc, texts)?;
    if stay_alike(texts, &file, source.items()) {
        put_alike(&mut out, source.items())?;
    }
    Ok(Noted { text: out, cuts })
}
