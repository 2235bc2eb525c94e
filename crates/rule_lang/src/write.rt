//! The canonical spelling.

ghost use Rattle.std.specs.Prelude.{◌≡◌, ◌++◌, OnOk, IfOk, string_bytes, codes};
ghost use Rattle.std.specs.Fmt.{decimal};
ghost use Rattle.rule_lang.specs.View.{tree_of, item_of, items_of};
ghost use Rattle.rule_lang.specs.Tree.{agg_word};
ghost use Rattle.rule_lang.specs.Program.{HasProgram};
ghost use Rattle.rule_lang.specs.Canonical.{op_text, tree_text, item_text, program_text};
ghost use Rattle.rule_lang.specs.Numbers.{HasNumbers, HasItemNumbers};

use crate::source::Source;
use crate::tree::{Agg, Expr, Item, Op};
use std::alloc::{AllocError, Global};

/// An operator between two blanks.
fn operator_text(op: Op) -> &'static str
    ensures { result.now ≡ codes " " ++ (op_text op ++ codes " ") }
{
    match op {
        Op::Plus => " + ",
        Op::Minus => " - ",
        Op::Times => " * ",
        Op::Quot => " / ",
        Op::Rem => " % ",
        Op::BitAnd => " & ",
        Op::BitOr => " | ",
        Op::BitXor => " ^ ",
        Op::Equal => " == ",
        Op::Differ => " != ",
        Op::Less => " < ",
        Op::LessEq => " <= ",
        Op::Greater => " > ",
        Op::GreaterEq => " >= ",
        Op::Min => " min ",
        Op::Max => " max ",
    }
}

/// The word of an aggregate and a blank.
fn aggregate_text(agg: Agg) -> &'static str
    ensures { result.now ≡ agg_word agg ++ codes " " }
{
    match agg {
        Agg::Total => "total ",
        Agg::Least => "least ",
        Agg::Most => "most ",
        Agg::Count => "count ",
        Agg::Some1 => "any ",
        Agg::Every => "all ",
    }
}

/// Adds a number.
fn put_number(alloc: Global, out: &mut String, value: u32) -> Result<(), AllocError>
    ensures { OnOk result (string_bytes out.new ≡ string_bytes out.old ++ decimal value) }
{
    out.push_str(&value.to_string(alloc)?)
}

/// Adds an expression.
#[cycle(expression)]
fn put_expression(alloc: Global, out: &mut String, expr: &Expr) -> Result<(), AllocError>
    ensures text { OnOk result (string_bytes out.new ≡ string_bytes out.old ++ tree_text (tree_of expr.now)) }
    ensures numbers { OnOk result (HasNumbers (tree_of expr.now)) }
{
    match expr {
        Expr::Number(value) => put_number(alloc, out, *value),
        Expr::Own(name) => out.push_str(name),
        Expr::Id => out.push_str("id"),
        Expr::Degree => out.push_str("degree"),
        Expr::Round => out.push_str("round"),
        Expr::Near(name) => {
            out.push_str("n.")?;
            out.push_str(name)
        }
        Expr::NearId => out.push_str("n.id"),
        Expr::NearWeight => out.push_str("n.weight"),
        Expr::Infix(op, left, right) => {
            put_part(alloc, out, "(", left)?;
            put_part(alloc, out, operator_text(*op), right)?;
            out.push_str(")")
        }
        Expr::Not(part) => put_part(alloc, out, "not ", part),
        Expr::Over(agg, part) => put_part(alloc, out, aggregate_text(*agg), part),
        Expr::Choice(test, yes, no) => {
            put_part(alloc, out, "if ", test)?;
            put_part(alloc, out, " then ", yes)?;
            put_part(alloc, out, " else ", no)
        }
    }
}

/// Adds what stands before an expression, and the expression.
#[cycle(expression)]
fn put_part(alloc: Global, out: &mut String, before: &str, expr: &Expr) -> Result<(), AllocError>
    ensures text { OnOk result (string_bytes out.new ≡ string_bytes out.old ++ (before.now ++ tree_text (tree_of expr.now))) }
    ensures numbers { OnOk result (HasNumbers (tree_of expr.now)) }
{
    out.push_str(before)?;
    put_expression(alloc, out, expr)
}

/// Adds how an item begins, up to what its name is given.
fn put_head(out: &mut String, word: &str, name: &str) -> Result<(), AllocError>
    ensures { OnOk result (string_bytes out.new ≡ string_bytes out.old ++ (word.now ++ (name.now ++ codes " = "))) }
{
    out.push_str(word)?;
    out.push_str(name)?;
    out.push_str(" = ")
}

/// Adds an item in the canonical spelling, a line. Where memory runs out, some of it may stand there.
pub fn put_item(alloc: Global, out: &mut String, item: &Item) -> Result<(), AllocError>
    ensures text { OnOk result (string_bytes out.new ≡ string_bytes out.old ++ item_text (item_of item.now)) }
    ensures numbers { OnOk result (HasItemNumbers (item_of item.now)) }
{
    match item {
        Item::Field { name, value } => {
            put_head(out, "field ", name)?;
            put_number(alloc, out, *value)?;
            out.push_str(";\n")
        }
        Item::Next { name, body } => {
            put_head(out, "next ", name)?;
            put_expression(alloc, out, body)?;
            out.push_str(";\n")
        }
    }
}

/// The canonical spelling of a program. It has the same items, so `read_program` gives an equal
/// `Source` for it where it has at most 65,536 bytes (`canonical_is_read_back`); a text without
/// blanks can have a longer one.
pub fn write_program(alloc: Global, source: &Source) -> Result<Vec<u8>, AllocError>
    ensures text { IfOk result (λ bytes. bytes.items ≡ program_text source.now) }
    ensures program { IfOk result (λ bytes. HasProgram bytes.items source.now) }
{
    let mut out = String::new(alloc);
    for item in source.items() {
        put_item(alloc, &mut out, item)?;
    }
    Ok(out.into_bytes())
}
