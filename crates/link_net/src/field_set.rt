//! The opening values that a network file gives to fields.
ghost use Rattle.std.specs.Prelude.{◌≡◌, string_bytes};

use std::marker::Model;

/// The name of a field, seen as its bytes.
#[derive(Debug, Drop)]
pub struct Name {
    text: String,
}

impl Model for Name {
    ghost use Rattle.std.specs.Prelude.{List, ℕ, string_bytes};

    ghost Value = { List ℕ };

    ghost view = { λ a. string_bytes a.text };
}

impl Name {
    /// The name with this text.
    pub fn new(text: String) -> Name
        ensures text { result ≡ string_bytes text }
    {
        Name { text }
    }

    /// The name's text.
    pub fn as_str(&self) -> &str
        ensures text { result.now ≡ self.now }
    {
        self.text.as_str()
    }
}

/// Pairs of numbers in the file's order, seen as their list.
#[derive(Drop)]
pub struct Pairs {
    items: Vec<(i64, i64)>,
}

impl Model for Pairs {
    ghost use Rattle.std.specs.Prelude.{List, ℤ};

    ghost Value = { List (ℤ × ℤ) };

    ghost view = { λ a. a.items.items };
}

impl Pairs {
    /// These pairs.
    pub fn new(items: Vec<(i64, i64)>) -> Pairs
        ensures items { result ≡ items.items }
    {
        Pairs { items }
    }

    /// The pairs, in the file's order.
    pub fn as_slice(&self) -> &[(i64, i64)]
        ensures items { result.now ≡ self.now }
    {
        self.items.as_slice()
    }
}

/// What one key of `set` gives: the field's name, and the pairs [node, value] in the file's order.
/// The numbers are those of the file, in any range.
#[derive(Drop)]
pub struct FieldSet {
    pub name: Name,
    pub pairs: Pairs,
}
