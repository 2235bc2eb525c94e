//! How much an expansion may still grow.

ghost use Rattle.std.specs.Prelude.{◌≡◌, ◌+◌, IfErr, OnErr, OnOk};
ghost use Rattle.model_rules.specs.declared.fault.Cause.TheVariants.{TooLong};
ghost use Rattle.model_rules.specs.declared.fault.ExpandFault.TheVariants.{At};
ghost use Rattle.model_rules.specs.Refusals.{item_at, parts_left};

use crate::fault::{Cause, ExpandFault};
use std::alloc::Global;

/// How many parts may still be made, for the item at a place of the text.
#[derive(Drop)]
pub struct Room {
    left: u32,
    at: u32,
    /// Where memory is taken from for them.
    pub alloc: Global,
}

impl Room {
    /// Room for as many parts as a program text may have bytes.
    pub fn new(alloc: Global, at: u32) -> Room
        ensures item { item_at result ≡ at }
        ensures whole { parts_left result ≡ 65536 }
    {
        Room {
            left: 65536,
            at,
            alloc,
        }
    }

    /// Takes the place of one part, or tells that the item is too long.
    pub fn take(&mut self) -> Result<(), ExpandFault>
        ensures item { item_at self.new ≡ item_at self.old }
        ensures taken { OnOk result (parts_left self.new + 1 ≡ parts_left self.old) }
        ensures none { OnErr result (parts_left self.old ≡ 0) }
        ensures refused { IfErr result (λ fault. fault ≡ At TooLong (item_at self.old)) }
    {
        if self.left == 0 {
            return Err(ExpandFault::At {
                cause: Cause::TooLong,
                at: self.at,
            });
        }
        self.left -= 1;
        Ok(())
    }
}
