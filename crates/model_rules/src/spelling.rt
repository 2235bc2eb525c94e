//! The canonical spelling of rules, each after its comment.

ghost use Rattle.std.specs.Prelude.{◌≡◌, ◌++◌, OnOk, IfOk, string_bytes};
ghost use Rattle.std.specs.List.{AllByRecursion};
ghost use Rattle.rule_lang.specs.Numbers.{HasItemNumbers};
ghost use Rattle.rule_lang.specs.View.{items_of};
ghost use Rattle.model_rules.specs.Written.{comment, commented};

use rule_lang::{Item, put_item};
use std::alloc::{AllocError, Global};

/// Adds the comment with a line of the model.
fn put_comment(alloc: Global, out: &mut String, line: usize) -> Result<(), AllocError>
    ensures text { OnOk result (string_bytes out.new ≡ string_bytes out.old ++ comment line) }
{
    out.push_str("# line ")?;
    out.push_str(&line.to_string(alloc)?)?;
    out.push_str("\n")
}

/// The text of rules, each after the comment with the line that it has among these, as far as there are lines.
pub(crate) fn spelled(alloc: Global, lines: &[usize], rules: &[Item]) -> Result<Vec<u8>, AllocError>
    ensures text { IfOk result (λ bytes. bytes.items ≡ commented lines.now (items_of rules.now)) }
    ensures numbers { OnOk result (AllByRecursion HasItemNumbers (items_of rules.now)) }
{
    let mut out = String::new(alloc);
    for (k, rule) in rules.iter().enumerate() {
        if let Some(line) = lines.get(k) {
            put_comment(alloc, &mut out, *line)?;
        }
        put_item(alloc, &mut out, rule)?;
    }
    Ok(out.into_bytes())
}
