//! Nodes that a text names.

/// A node that a text names: its name, and the line where it stands, counted from 1.
#[derive(Clone, Copy)]
pub struct Mention<'a> {
    pub name: &'a str,
    pub line: u64,
}
