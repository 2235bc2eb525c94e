//! Rules that are within the bounds of the rule language.

ghost use Rattle.std.specs.Prelude.{◌≡◌, ◌++◌, ◌∷◌, [], min, length, None, IfErr, OnOk};
ghost use Rattle.rule_lang.specs.View.{item_of, items_of};
ghost use Rattle.rule_check.specs.Table.{M};
ghost use Rattle.rule_check.specs.Items.{nexts_of};
ghost use Rattle.rule_check.specs.WellFormed.{all_parts};
ghost use Rattle.model_rules.specs.Bounds.{size_cause};
ghost use Rattle.model_rules.specs.Counts.{IsCounted};
ghost use Rattle.model_rules.specs.FirstFaults.{IsFirst, told_at};

use crate::fault::{Cause, ExpandFault, wrong};
use crate::forms::aggregates_in;
use crate::length::item_length;
use rule_lang::Item;
use std::alloc::Global;

/// The most aggregates of a program.
const MOST_AGGREGATES: u32 = 16;

/// The most bytes of a program text.
const MOST_BYTES: usize = 65536;

/// Rules, with how many aggregates they have and how many bytes their text has.
#[derive(Drop)]
pub struct Expansion {
    pub rules: Vec<Item>,
    pub aggregates: u32,
    pub bytes: usize,
}

/// How many aggregates an item has, as far as a word counts.
fn aggregates_of(item: &Item) -> u32
    ensures exact { result ≡ min (length (all_parts (nexts_of (item_of item.now ∷ [])))) M }
{
    match item {
        Item::Field { .. } => 0,
        Item::Next { body, .. } => aggregates_in(body),
    }
}

impl Expansion {
    /// No rules.
    pub fn new(alloc: Global) -> Expansion
        ensures empty { result.rules.items ≡ [] }
        ensures counted { IsCounted result }
    {
        Expansion {
            rules: Vec::new(alloc),
            aggregates: 0,
            bytes: 0,
        }
    }

    /// Adds the rule of the item at a place of the model, where it is still within the bounds.
    pub fn add(&mut self, rule: Item, at: u32, alloc: Global) -> Result<(), ExpandFault>
        ensures added { OnOk result (self.new.rules.items ≡ self.old.rules.items ++ rule ∷ []) }
        ensures counted { IsCounted self.old → OnOk result (IsCounted self.new) }
        ensures faultless { IsCounted self.old → OnOk result (size_cause (items_of self.old.rules.items ++ item_of rule ∷ []) ≡ None) }
        ensures refused { IsCounted self.old → IfErr result (IsFirst (told_at at (size_cause (items_of self.old.rules.items ++ item_of rule ∷ [])))) }
    {
        let aggregates = self.aggregates.saturating_add(aggregates_of(&rule));
        if aggregates > MOST_AGGREGATES {
            return Err(wrong(Cause::TooManyAggregates, at));
        }
        let bytes = self.bytes.saturating_add(item_length(&rule, alloc)?);
        if bytes > MOST_BYTES {
            return Err(wrong(Cause::TooLong, at));
        }
        self.rules.push(rule)?;
        self.aggregates = aggregates;
        self.bytes = bytes;
        Ok(())
    }
}
