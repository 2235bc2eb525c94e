//! A network document of the right shape, its numbers unchecked.
ghost use Rattle.std.specs.Prelude.{◌≡◌};
ghost use Rattle.link_net.specs.Names.{AreRising};

use crate::FieldSet;
use std::marker::Model;

/// Links as the file has them: two ends and a weight each. Seen as their list.
#[derive(Drop)]
pub(crate) struct DraftLinks {
    items: Vec<(i64, i64, i64)>,
}

impl Model for DraftLinks {
    ghost use Rattle.std.specs.Prelude.{List, ℤ};

    ghost Value = { List (ℤ × ℤ × ℤ) };

    ghost view = { λ a. a.items.items };
}

impl DraftLinks {
    /// These links, each with its two ends and its weight.
    pub(crate) fn new(items: Vec<(i64, i64, i64)>) -> DraftLinks
        ensures { result ≡ items.items }
    {
        DraftLinks { items }
    }

    /// The links in the order of the file.
    pub(crate) fn as_slice(&self) -> &[(i64, i64, i64)]
        ensures { result.now ≡ self.now }
    {
        self.items.as_slice()
    }
}

/// The field sets of a file, by rising order of the names' bytes. Seen as their list.
#[derive(Drop)]
pub(crate) struct FieldSets {
    items: Vec<FieldSet>,
}

impl Model for FieldSets {
    ghost use Rattle.std.specs.Prelude.{List};
    ghost use Rattle.link_net.specs.declared.field_set.FieldSet.{FieldSet};

    ghost Value = { List FieldSet };

    ghost use Rattle.link_net.specs.Names.{AreRising};

    ghost view = { λ a. a.items.items };

    ghost invariant = { λ a. AreRising a.items.items };
}

impl FieldSets {
    /// These field sets, which rise.
    pub(crate) fn new(items: Vec<FieldSet>) -> FieldSets
        requires { AreRising items.items }
        ensures { result ≡ items.items }
    {
        FieldSets { items }
    }

    /// The field sets by rising names.
    pub(crate) fn as_slice(&self) -> &[FieldSet]
        ensures items { result.now ≡ self.now }
        ensures rising { AreRising result.now }
    {
        self.items.as_slice()
    }
}

/// A document of the right shape, its numbers unchecked.
#[derive(Drop)]
pub(crate) struct Draft {
    pub(crate) nodes: i64,
    pub(crate) links: DraftLinks,
    pub(crate) phase: i64,
    pub(crate) sets: FieldSets,
}
