//! The parts of a checked program.

ghost use Rattle.std.specs.Prelude.{◌≡◌, IfOk, string_bytes, List, ℕ};
ghost use Rattle.std.specs.Str.{bytes_eq};

use crate::code::Instr;
use rule_lang::Agg;
use std::alloc::{AllocError, Global};
use std::marker::Model;

/// The name of a field. A contract sees its bytes.
#[derive(Drop)]
pub struct Name {
    text: String,
}

impl Model for Name {
    ghost Value = { List ℕ };

    ghost view = { λ n. string_bytes n.text };
}

impl Name {
    /// The name that the text spells.
    pub fn new(alloc: Global, text: &str) -> Result<Name, AllocError>
        ensures exact { IfOk result (λ n. n ≡ text.now) }
    {
        let text = String::from_str(alloc, text)?;
        Ok(Name { text })
    }

    /// Its spelling.
    pub fn as_str(&self) -> &str
        ensures exact { result.now ≡ self.now }
    {
        self.text.as_str()
    }

    /// Whether the text spells it.
    pub fn is(&self, text: &str) -> bool
        ensures exact { result ≡ bytes_eq self.now text.now }
    {
        self.text.as_str() == text
    }
}

/// A declared field, with its initial value.
#[derive(Drop)]
pub struct Field {
    pub name: Name,
    pub opening: u32,
}

/// An aggregate, and the code of its part.
#[derive(Drop)]
pub struct Gatherer {
    pub agg: Agg,
    pub code: Vec<Instr>,
}

/// The place of a field, and the code of its next value.
#[derive(Drop)]
pub struct Rule {
    pub field: u32,
    pub code: Vec<Instr>,
}
