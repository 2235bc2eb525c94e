//! Lists of nodes: texts with a name or a number on each line.
ghost use Rattle.std.specs.Prelude.{◌≡◌, ◌++◌, ◌∷◌, [], map, IfOk, OnOk};
ghost use Rattle.net_initial.specs.NodeLists.{trimmed, names_nothing, with_line, listed_in};

use import_lines::split_line;
use std::alloc::{AllocError, Global};

/// A line of a list of nodes that names one.
#[derive(Clone, Copy, Drop)]
pub struct NodeLine<'a> {
    /// The number of the line, counted from 1.
    pub line: u64,
    /// What stands on it, without the blanks at both ends.
    pub text: &'a [u8],
}

/// The line without the blanks, TABs and line ends at both ends.
fn trimmed(line: &[u8]) -> &[u8]
    ensures { result.now ≡ trimmed line.now }
{
    line.trim_ascii()
}

/// Whether a text names no node: it is empty, or begins with `#`.
fn names_nothing(text: &[u8]) -> bool
    ensures comment { result ≡ names_nothing text.now }
{
    match text.first() {
        Some(byte) => *byte == b'#',
        None => true,
    }
}

/// Puts a line after the others, where it names a node.
fn put_line<'a>(lines: &mut Vec<NodeLine<'a>>, line: u64, bytes: &'a [u8]) -> Result<(), AllocError>
    ensures { OnOk result (map (λ l. (l.line, l.text.now)) lines.new.items ≡ map (λ l. (l.line, l.text.now)) lines.old.items ++ with_line line bytes.now []) }
{
    let text = trimmed(bytes);
    if names_nothing(text) {
        return Ok(());
    }
    lines.push(NodeLine { line, text })?;
    Ok(())
}

/// The lines of a list of nodes that name one, in their order: blank lines, and those that begin with `#` after blanks or
/// without, are passed over.
pub fn node_lines<'a>(alloc: Global, list: &'a [u8]) -> Result<Vec<NodeLine<'a>>, AllocError>
    ensures lines { IfOk result (λ v. map (λ l. (l.line, l.text.now)) v.items ≡ listed_in 1 list.now) }
{
    let mut lines = Vec::new(alloc);
    let mut rest = list;
    let mut number: u64 = 0;
    while !rest.is_empty() {
        let (line, behind) = split_line(rest);
        number += 1;
        rest = behind;
        put_line(&mut lines, number, line)?;
    }
    Ok(lines)
}
