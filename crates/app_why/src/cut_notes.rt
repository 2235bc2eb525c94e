//! Notes on products and totals that can be cut.
ghost use Rattle.std.specs.Prelude.{◌≡◌, ◌≤◌, [], List, Option, length, IfOk, IsNone, Some};
ghost use Rattle.rule_lang.specs.Program.{HasProgram};
ghost use Rattle.rule_lang.specs.Tree.{ItemTree};
ghost use Rattle.rule_lang.specs.View.{items_of};
ghost use Rattle.rule_check.specs.Items.{rules_of};
ghost use Rattle.rounds_plan.specs.Plans.{PlanView};
ghost use Rattle.rule_cuts.specs.Cuttable.{noted_places};
ghost use Rattle.app_why.specs.Notes.{AreLimits, AreNoted};

use crate::limits::limits_of;
use crate::place_at;
use crate::told::Named;
use rounds_plan::PlanRef;
use rule_cuts::{Cuttable, Limits, Operand, Operation, cuttable_in, greatest_uncut};
use rule_lang::{Expr, Item, read_program};
use rule_ranges::only_value;
use std::alloc::{AllocError, Global};

/// An operand of a product, and on which side it stands.
#[derive(Clone, Copy)]
struct Factor<'a> {
    operand: Operand<'a>,
    side: &'static str,
}

/// Adds what an operand is called: as it is written where that is one word, else by its side.
fn put_factor(out: &mut String, factor: Factor<'_>) -> Result<(), AllocError> {
    match factor.operand.expr {
        Expr::Number(number) => write!(out, "{number}"),
        Expr::Own(name) => out.push_str(name.as_str()),
        Expr::Id => out.push_str("id"),
        Expr::Degree => out.push_str("degree"),
        Expr::Round => out.push_str("round"),
        Expr::Near(name) => {
            out.push_str("n.")?;
            out.push_str(name.as_str())
        }
        Expr::NearId => out.push_str("n.id"),
        Expr::NearWeight => out.push_str("n.weight"),
        _ => {
            let side = factor.side;
            write!(out, "its {side} operand")
        }
    }
}

/// The one value of an operand, where it has but one.
fn value_of(operand: Operand<'_>) -> Option<u32> {
    match operand.expr {
        Expr::Number(number) => Some(*number),
        _ => only_value(operand.range),
    }
}

/// Adds above which value a factor passes, times this number.
fn put_times(out: &mut String, factor: Factor<'_>, number: u32) -> Result<(), AllocError> {
    let bound = greatest_uncut(number);
    put_factor(out, factor)?;
    write!(out, " above {bound} times {number} passes it")
}

/// Adds above which value one factor can pass, times the other, which is bounded.
fn put_bounded(out: &mut String, large: Factor<'_>, small: Factor<'_>) -> Result<(), AllocError> {
    let most = small.operand.range.most;
    let bound = greatest_uncut(most);
    put_factor(out, large)?;
    write!(out, " above {bound} times ")?;
    put_factor(out, small)?;
    write!(out, ", at most {most}, can pass it")
}

/// Adds above which values a product passes, neither of whose operands has but one value.
fn put_open(out: &mut String, left: Factor<'_>, right: Factor<'_>) -> Result<(), AllocError> {
    let left_most = left.operand.range.most;
    let right_most = right.operand.range.most;
    if left_most < right_most {
        return put_bounded(out, right, left);
    }
    if right_most < u32::MAX {
        return put_bounded(out, left, right);
    }
    put_factor(out, left)?;
    out.push_str(" times ")?;
    put_factor(out, right)?;
    out.push_str(" passes it where both are above 65535")
}

/// Adds above which values a product is cut.
fn put_product(out: &mut String, left: Operand<'_>, right: Operand<'_>) -> Result<(), AllocError> {
    let values = (value_of(left), value_of(right));
    let left = Factor {
        operand: left,
        side: "left",
    };
    let right = Factor {
        operand: right,
        side: "right",
    };
    match values {
        (Some(a), Some(b)) => write!(out, "{a} times {b} passes it"),
        (None, Some(b)) => put_times(out, left, b),
        (Some(a), None) => put_times(out, right, a),
        (None, None) => put_open(out, left, right),
    }
}

/// Adds above which value a total over so many neighbours is cut.
fn put_total(out: &mut String, degree: u32, of_network: bool) -> Result<(), AllocError> {
    let bound = greatest_uncut(degree);
    let whose = if of_network {
        ""
    } else {
        ", the most of a node,"
    };
    write!(
        out,
        "a value above {bound} over {degree} neighbours{whose} passes it"
    )
}

/// What an operation is called.
fn kind_of(operation: Operation<'_>) -> &'static str {
    match operation {
        Operation::Product(_, _) => "product",
        Operation::Total(_) => "total",
    }
}

/// Adds the place of an operation, and what it is.
fn put_place(
    out: &mut String,
    program: Named<'_>,
    at: usize,
    operation: Operation<'_>,
) -> Result<(), AllocError> {
    let name = program.name;
    let place = place_at(program.text, at);
    let line = place.line;
    let column = place.column;
    let kind = kind_of(operation);
    write!(
        out,
        "note: {name}:{line}:{column}: the {kind} can be cut at 4294967295: "
    )
}

/// Adds above which values an operation is cut.
fn put_limit(
    out: &mut String,
    operation: Operation<'_>,
    degree: u32,
    of_network: bool,
) -> Result<(), AllocError> {
    match operation {
        Operation::Product(left, right) => put_product(out, left, right)?,
        Operation::Total(_) => put_total(out, degree, of_network)?,
    }
    out.push_str("; unison cuts tells whether a run does\n")
}

/// Adds how many operations there are besides, where there are some.
fn put_others(out: &mut String, others: usize) -> Result<(), AllocError> {
    match others {
        0 => Ok(()),
        1 => out.push_str(", and one more"),
        others => write!(out, ", and {others} more"),
    }
}

/// What is told of operations that can be cut, in one line: of the first, and how many there are besides.
fn line_of(
    alloc: Global,
    program: Named<'_>,
    first: Cuttable<'_>,
    others: usize,
) -> Result<String, AllocError> {
    let place = place_at(program.text, first.at);
    let (line, column) = (place.line, place.column);
    let kind = kind_of(first.operation);
    let name = program.name;
    let mut out = format!(in alloc; "{name}:{line}:{column}: the {kind} can be cut at 4294967295")?;
    put_others(&mut out, others)?;
    out.push_str(
        ": unison cuts tells whether a run does and where, unison why from which values on; --quiet leaves this out",
    )?;
    Ok(out)
}

/// What is told of the operations that can be cut, where there are some.
fn line_where(
    alloc: Global,
    program: Named<'_>,
    noted: &[Cuttable<'_>],
) -> Result<Option<String>, AllocError>
    ensures none { IfOk result (λ line. IsNone line → noted.now ≡ []) }
{
    match noted {
        [first, others @ ..] => line_of(alloc, program, *first, others.len()).map(Some),
        [] => Ok(None),
    }
}

/// A note, in one line, where products or totals of a program, whose text this is, can be cut in the run of a plan, on a network of any
/// size: where the first of them stands, and how to see more. None where none can be, as `why` tells.
pub fn cut_note(
    alloc: Global,
    program: Named<'_>,
    plan: &PlanRef<'_>,
) -> Result<Option<String>, AllocError>
    ensures none { IfOk result (λ note. IsNone note → (items : List ItemTree) → HasProgram program.entry.text.now items → plan.now.program ≡ rules_of items → AreNoted program.entry.text.now (Some plan.now) []) }
{
    let Ok(source) = read_program(alloc, program.text) else {
        return Err(AllocError);
    };
    let limits = limits_of(alloc, plan)?;
    let noted = cuttable_in(alloc, program.text, source.items(), &limits)?;
    line_where(alloc, program, &noted)
}

/// Adds a note for each of these operations.
fn put_notes(
    out: &mut String,
    program: Named<'_>,
    noted: &[Cuttable<'_>],
    degree: u32,
    of_network: bool,
) -> Result<(), AllocError> {
    for cut in noted {
        put_place(out, program, cut.at, cut.operation)?;
        put_limit(out, cut.operation, degree, of_network)?;
    }
    Ok(())
}

/// The places of these operations.
fn places_of(alloc: Global, noted: &[Cuttable<'_>]) -> Result<Vec<usize>, AllocError>
    ensures exact { IfOk result (λ v. v.items ≡ noted_places noted.now) }
{
    let mut places = Vec::new(alloc);
    for cut in noted {
        places.push(cut.at)?;
    }
    Ok(places)
}

/// Adds a note for each product and each total of a program that can be cut within the limits of a run, or of some run on some network.
/// Answers their places in the program's text, whose items these are.
pub(crate) fn put_cut_notes(
    alloc: Global,
    out: &mut String,
    program: Named<'_>,
    items: &[Item],
    limits: &Limits<'_>,
    of_network: bool,
) -> Result<Vec<usize>, AllocError>
    ensures noted { IfOk result (λ v. length program.entry.text.now ≤ 65536 → HasProgram program.entry.text.now (items_of items.now) → (run : Option PlanView) → AreLimits (rules_of (items_of items.now)) run limits.now
        → AreNoted program.entry.text.now run v.items) }
{
    let noted = cuttable_in(alloc, program.text, items, limits)?;
    put_notes(out, program, &noted, limits.bounds.degree, of_network)?;
    places_of(alloc, &noted)
}
