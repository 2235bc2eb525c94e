//! The lines of a model on which its fields and next values stand.

ghost use Rattle.std.specs.Prelude.{◌≡◌, IfOk};
ghost use Rattle.model_text.specs.View.{item_of, items_of};
ghost use Rattle.model_rules.specs.Lines.{line_of, rule_place, lines_of};

use model_text::Item;
use std::alloc::{AllocError, Global};

/// The number of the line of the byte `at`, counted from 1.
fn line_at(text: &[u8], at: u32) -> usize
    ensures exact { result ≡ line_of text.now at }
{
    let end = text.len().min(at as usize);
    let mut line = 1usize;
    for byte in &text[..end] {
        if *byte == b'\n' {
            line += 1;
        }
    }
    line
}

/// Where the name of a field or of a next value stands.
fn place_of_rule(item: &Item) -> Option<u32>
    ensures exact { result ≡ rule_place (item_of item.now) }
{
    match item {
        Item::Field { name, .. } | Item::Next { name, .. } => Some(name.at),
        Item::Const { .. } | Item::States { .. } | Item::Let { .. } => None,
    }
}

/// The lines on which the names of the fields and of the next values stand, counted from 1, in their order.
pub(crate) fn rule_lines(
    alloc: Global,
    text: &[u8],
    items: &[Item],
) -> Result<Vec<usize>, AllocError>
    ensures exact { IfOk result (λ lines. lines.items ≡ lines_of text.now (items_of items.now)) }
{
    let mut lines = Vec::new(alloc);
    for item in items {
        if let Some(at) = place_of_rule(item) {
            lines.push(line_at(text, at))?;
        }
    }
    Ok(lines)
}
