//! The lines of nodes.
ghost use Rattle.std.specs.Prelude.{◌≡◌, ◌++◌, ◌≤◌, OnOk, length, map, slice_get, string_bytes};
ghost use Rattle.run_picture.specs.Drawn.{called, class_text, escaped, escaped_char, ink_text, node_line, node_lines, value_label};

use crate::colour::{class_of, ink_of, put_fill};
use crate::key::{Key, NO_VALUE};
use std::alloc::AllocError;

/// A character in a quoted label.
fn put_char(out: &mut String, character: char) -> Result<(), AllocError>
    ensures text { OnOk result (string_bytes out.new ≡ string_bytes out.old ++ escaped_char character) }
{
    match character {
        '"' => out.push_str("\\\""),
        '\\' => out.push_str("\\\\"),
        '&' => out.push_str("&amp;"),
        _ => out.push(character),
    }
}

/// A name in a quoted label.
fn put_escaped(out: &mut String, name: &str) -> Result<(), AllocError>
    ensures text { OnOk result (string_bytes out.new ≡ string_bytes out.old ++ escaped name.now) }
{
    for character in name.chars() {
        put_char(out, character)?;
    }
    Ok(())
}

/// What stands for a node or for a value: its label, or past the last its number.
fn put_label(out: &mut String, labels: &[String], number: u32) -> Result<(), AllocError>
    ensures text { OnOk result (string_bytes out.new ≡ string_bytes out.old ++ called (slice_get (map string_bytes labels.now) number) number) }
{
    match labels.get(number as usize) {
        Some(label) => put_escaped(out, label.as_str()),
        None => write!(out, "{number}"),
    }
}

/// What stands for a value, or that there is none.
fn put_value(out: &mut String, key: &Key<'_>, value: u32) -> Result<(), AllocError>
    ensures text { OnOk result (string_bytes out.new ≡ string_bytes out.old ++ value_label key.now value) }
{
    if value == NO_VALUE {
        return out.push_str("none");
    }
    put_label(out, key.styles().names(), value)
}

/// A colour of writing, and the end of the line.
fn put_ink(out: &mut String, ink: &str) -> Result<(), AllocError>
    ensures text { OnOk result (string_bytes out.new ≡ string_bytes out.old ++ ink_text ink.now) }
{
    write!(out, "\", fontcolor=\"{ink}\"];\n")
}

/// The colours of a node: that of a class, and one that is read on it.
#[tactic(auto, unfolding(crate::specs::Drawn::class_text))]
fn put_class(out: &mut String, key: &Key<'_>, class: usize) -> Result<(), AllocError>
    ensures text { OnOk result (string_bytes out.new ≡ string_bytes out.old ++ class_text key.now class) }
{
    out.push_str("\", fillcolor=\"")?;
    put_fill(out, key, class)?;
    put_ink(out, ink_of(key, class))
}

/// The line of a node.
#[tactic(auto, unfolding(crate::specs::Drawn::node_line))]
fn put_node(
    out: &mut String,
    key: &Key<'_>,
    labels: &[String],
    node: u32,
    value: u32,
) -> Result<(), AllocError>
    ensures text { OnOk result (string_bytes out.new ≡ string_bytes out.old ++ node_line key.now (slice_get (map string_bytes labels.now) node) node value) }
{
    write!(out, "  {node} [label=\"")?;
    put_label(out, labels, node)?;
    out.push_str("\\n")?;
    put_value(out, key, value)?;
    put_class(out, key, class_of(key, value))
}

/// The lines of all nodes.
pub(crate) fn put_nodes(
    out: &mut String,
    key: &Key<'_>,
    labels: &[String],
    values: &[u32],
) -> Result<(), AllocError>
    requires few { length values.now ≤ 65536 }
    ensures text { OnOk result (string_bytes out.new ≡ string_bytes out.old ++ node_lines key.now (map string_bytes labels.now) 0 values.now) }
{
    for (node, value) in values.iter().enumerate() {
        put_node(out, key, labels, node as u32, *value)?;
    }
    Ok(())
}
