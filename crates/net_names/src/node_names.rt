//! Names of nodes.
ghost use Rattle.std.specs.Prelude.{◌≡◌, ◌≢◌, ◌≤◌, ◌<◌, ◌++◌, [], ◌∷◌, true, false, Ok, Err, Some, map, length, position, slice_get, string_bytes, option_copied, IfOk, IfErr, OnOk, OnErr};
ghost use Rattle.std.specs.List.{IsDistinct};
ghost use Rattle.std.specs.Str.{bytes_eq};
ghost use Rattle.std.specs.String.{string_eq};
ghost use Rattle.indexmap.specs.IndexSet.{IsUnchanged, contains_text};
ghost use Rattle.link_net.specs.Limits.{most_rows};
ghost use Rattle.net_names.specs.declared.fault.NamesFault.TheVariants.{Memory};
ghost use Rattle.net_names.specs.Naming.{AreNames, is_name, has_name, place_in, with_name, number_in};

use crate::NamesFault;
use crate::name_test::is_name;
use indexmap::IndexSet;
use std::alloc::{AllocError, Global};
use std::marker::Model;

/// Names of nodes, one to one: the name at place k, counted from 0, is that of node k. They are at most
/// 4,294,967,295.
#[derive(Drop)]
pub struct NodeNames {
    alloc: Global,
    texts: IndexSet<String>,
}

impl Model for NodeNames {
    ghost use Rattle.std.specs.Prelude.{ℕ, List, map, string_bytes};
    ghost use Rattle.net_names.specs.Naming.{AreNames};

    ghost Value = { List (List ℕ) };

    ghost view = { λ a. map string_bytes a.texts.keys };

    ghost invariant = { λ a. AreNames (map string_bytes a.texts.keys) };
}

/// Puts a text that is new after the others.
pub(crate) fn put_text(
    alloc: Global,
    texts: &mut IndexSet<String>,
    text: &str,
) -> Result<(), AllocError>
    requires new { contains_text texts.old text.now ≡ false }
    ensures put { OnOk result (map string_bytes texts.new.keys ≡ map string_bytes texts.old.keys ++ text.now ∷ []) }
    ensures distinct { OnOk result (IsDistinct string_eq texts.new.keys) }
    ensures unchanged { OnErr result (IsUnchanged texts.old texts.new) }
{
    let text = String::from_str(alloc, text)?;
    texts.insert(text)?;
    Ok(())
}

impl NodeNames {
    /// No names.
    pub fn new(alloc: Global) -> NodeNames
        ensures none { result ≡ [] }
    {
        NodeNames {
            alloc,
            texts: IndexSet::new(alloc),
        }
    }

    /// How many names there are, at most 4,294,967,295.
    pub fn count(&self) -> u32
        ensures count { result ≡ length self.now }
        ensures names { AreNames self.now }
    {
        self.texts.len() as u32
    }

    /// The number of a name, `None` where it is not there.
    pub fn number_of(&self, name: &str) -> Option<u32>
        ensures place { result ≡ position (bytes_eq name.now) self.now }
        ensures names { AreNames self.now }
    {
        let place = self.texts.get_index_of(name)?;
        Some(place as u32)
    }

    /// The name of a node, `None` where it has none.
    pub fn name(&self, node: u32) -> Option<&str>
        ensures name { option_copied result ≡ slice_get self.now node }
    {
        let text = self.texts.get_index(node as usize)?;
        Some(text.as_str())
    }

    /// The place of a name, and how many names there are where it is not among them.
    fn place_in(&self, name: &str) -> u32
        ensures place { result ≡ place_in self.now name.now }
    {
        match self.number_of(name) {
            Some(place) => place,
            None => self.count(),
        }
    }

    /// Puts a new name after the others.
    fn put(&mut self, name: &str) -> Result<(), AllocError>
        requires name { is_name name.now ≡ true }
        requires new { has_name self.old name.now ≡ false }
        requires room { length self.old < most_rows }
        ensures put { OnOk result (self.new ≡ self.old ++ name.now ∷ []) }
        ensures are_names { OnOk result (AreNames self.new) }
        ensures unchanged { OnErr result (self.new ≡ self.old) }
    {
        put_text(self.alloc, &mut self.texts, name)?;
        Ok(())
    }

    /// The number of a name, below so many; a name that is not there yet is put after the others. The first fault of
    /// [`NamesFault`]: `BadName` where it is no name, `TooManyNames` where the number would be no lower; `Memory` comes
    /// only where memory runs out, and where neither of these holds. With a fault the names stay as they were.
    pub fn number(&mut self, name: &str, most: u32) -> Result<u32, NamesFault>
        ensures number { IfOk result (λ number. number_in most self.old name.now ≡ Ok number) }
        ensures fault { IfErr result (λ fault. fault ≢ Memory → number_in most self.old name.now ≡ Err fault) }
        ensures refused { IfErr (number_in most self.old name.now) (λ fault. result ≡ Err fault) }
        ensures names { OnOk result (self.new ≡ with_name self.old name.now) }
        ensures are_names { OnOk result (AreNames self.new) }
        ensures place { IfOk result (λ number. slice_get self.new number ≡ Some name.now) }
        ensures unchanged { OnErr result (self.new ≡ self.old) }
    {
        if !is_name(name) {
            return Err(NamesFault::BadName);
        }
        let number = self.place_in(name);
        if number >= most {
            return Err(NamesFault::TooManyNames);
        }
        if number < self.count() {
            return Ok(number);
        }
        self.put(name)?;
        Ok(number)
    }

    /// The names as texts, in their order.
    pub(crate) fn texts(&self) -> &[String]
        ensures texts { map string_bytes result.now ≡ self.now }
        ensures names { AreNames self.now }
    {
        self.texts.as_slice()
    }
}
