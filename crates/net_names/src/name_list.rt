//! Names of the nodes of a network of any size.
ghost use Rattle.std.specs.Prelude.{◌≡◌, ◌≢◌, ◌≤◌, ◌<◌, ◌++◌, [], ◌∷◌, false, Err, map, length, position, string_bytes, IfOk, IfErr, OnOk, OnErr};
ghost use Rattle.std.specs.Str.{bytes_eq};
ghost use Rattle.link_net.specs.Limits.{most_rows};
ghost use Rattle.net_names.specs.declared.fault.NameListFault.TheVariants.{TooManyNames, Memory};
ghost use Rattle.net_names.specs.Naming.{AreListed, has_name, place_in, with_name};

use crate::NameListFault;
use crate::node_names::put_text;
use indexmap::IndexSet;
use std::alloc::{AllocError, Global};
use std::marker::Model;

/// Names, each once: the name at place k, counted from 0, is that of node k. They may be any texts, and are at most
/// 4,294,967,295.
#[derive(Drop)]
pub struct NameList {
    alloc: Global,
    texts: IndexSet<String>,
}

impl Model for NameList {
    ghost use Rattle.std.specs.Prelude.{ℕ, List, map, string_bytes};
    ghost use Rattle.net_names.specs.Naming.{AreListed};

    ghost Value = { List (List ℕ) };

    ghost view = { λ a. map string_bytes a.texts.keys };

    ghost invariant = { λ a. AreListed (map string_bytes a.texts.keys) };
}

impl NameList {
    /// No names.
    pub fn new(alloc: Global) -> NameList
        ensures none { result ≡ [] }
    {
        NameList {
            alloc,
            texts: IndexSet::new(alloc),
        }
    }

    /// How many names there are.
    pub fn count(&self) -> u32
        ensures count { result ≡ length self.now }
        ensures listed { AreListed self.now }
    {
        self.texts.len() as u32
    }

    /// The number of a name, `None` where it is not there.
    pub fn number_of(&self, name: &str) -> Option<u32>
        ensures place { result ≡ position (bytes_eq name.now) self.now }
        ensures listed { AreListed self.now }
    {
        let place = self.texts.get_index_of(name)?;
        Some(place as u32)
    }

    /// Puts a new name after the others.
    fn put(&mut self, name: &str) -> Result<(), AllocError>
        requires new { has_name self.old name.now ≡ false }
        requires room { length self.old < most_rows }
        ensures put { OnOk result (self.new ≡ self.old ++ name.now ∷ []) }
        ensures unchanged { OnErr result (self.new ≡ self.old) }
    {
        put_text(self.alloc, &mut self.texts, name)?;
        Ok(())
    }

    /// The number of a name; a name that is not there yet is put after the others. `TooManyNames` where it is new and
    /// there are 4,294,967,295, also where memory runs out; `Memory` comes only where memory runs out. With a fault the
    /// names stay as they were.
    pub fn number(&mut self, name: &str) -> Result<u32, NameListFault>
        ensures number { IfOk result (λ number. number ≡ place_in self.old name.now) }
        ensures names { OnOk result (self.new ≡ with_name self.old name.now) }
        ensures kind { IfErr result (λ fault. fault ≢ Memory → fault ≡ TooManyNames) }
        ensures crowd { IfErr result (λ fault. fault ≢ Memory → most_rows < length (with_name self.old name.now)) }
        ensures refused { most_rows < length (with_name self.old name.now) → result ≡ Err TooManyNames }
        ensures unchanged { OnErr result (self.new ≡ self.old) }
    {
        if let Some(number) = self.number_of(name) {
            return Ok(number);
        }
        let number = self.count();
        if number == u32::MAX {
            return Err(NameListFault::TooManyNames);
        }
        self.put(name)?;
        Ok(number)
    }

    /// The names as texts, in their order.
    pub(crate) fn texts(&self) -> &[String]
        ensures texts { map string_bytes result.now ≡ self.now }
    {
        self.texts.as_slice()
    }
}
