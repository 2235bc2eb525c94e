//! Links that are changed one by one, none of them twice.
ghost use Rattle.std.specs.Prelude.{◌≡◌, ◌<◌, ℕ, Some, slice_get, slice_set, length, IfOk, OnOk};
ghost use Rattle.net_random.specs.Changed.{AreKnown, ArePairsAfter, ArePairsOf, is_free, pair_of};
ghost use Rattle.net_random.specs.RandomNetworks.{starts};

use indexmap::IndexSet;
use link_net::Link;
use std::alloc::{AllocError, Global};

/// Links, and the pairs of nodes that they join, the lower node first.
#[derive(Drop)]
pub(crate) struct Changed {
    links: Vec<Link>,
    pairs: IndexSet<(u32, u32)>,
}

/// The two ends, the lower one first.
fn pair(link: Link) -> (u32, u32)
    ensures { result ≡ pair_of link }
{
    (link.0.min(link.1), link.0.max(link.1))
}

/// The pairs that links join.
fn pairs_of(alloc: Global, links: &[Link]) -> Result<IndexSet<(u32, u32)>, AllocError>
    ensures { IfOk result (λ pairs. ArePairsOf links.now pairs.keys) }
{
    let mut pairs = IndexSet::with_capacity(alloc, links.len())?;
    for link in links {
        pairs.insert(pair(*link))?;
    }
    Ok(pairs)
}

impl Changed {
    /// These links, unchanged.
    pub(crate) fn new(alloc: Global, links: Vec<Link>) -> Result<Changed, AllocError>
        ensures links { IfOk result (λ changed. changed.links.items ≡ links.items) }
        ensures pairs { IfOk result (λ changed. ArePairsOf links.items changed.pairs.keys) }
    {
        let pairs = pairs_of(alloc, links.as_slice())?;
        Ok(Changed { links, pairs })
    }

    /// How many links there are.
    pub(crate) fn len(&self) -> usize
        ensures { result ≡ length self.now.links.items }
    {
        self.links.len()
    }

    /// The links.
    pub(crate) fn into_links(self) -> Vec<Link>
        ensures { result.items ≡ self.links.items }
    {
        self.links
    }

    /// Whether a link may be put: it joins two different nodes that none joins.
    fn is_free(&self, link: Link) -> bool
        ensures { result ≡ is_free self.now.pairs.keys link }
    {
        link.0 != link.1 && !self.pairs.contains(&pair(link))
    }

    /// Puts a link in place of another.
    fn put(&mut self, place: usize, link: Link) -> Result<(), AllocError>
        ensures links { OnOk result (self.new.links.items ≡ slice_set self.old.links.items place link) }
        ensures pairs { OnOk result ((here : ℕ × ℕ × ℕ) → slice_get self.old.links.items place ≡ Some here
            → ArePairsAfter here link self.old.pairs.keys self.new.pairs.keys) }
    {
        let Some(here) = self.links.get_mut(place) else {
            return Ok(());
        };
        self.pairs.swap_remove(&pair(*here));
        *here = link;
        self.pairs.insert(pair(link))?;
        Ok(())
    }

    /// Leads a link's second end to another node, where that makes no self-loop and no parallel edge. Whether it did.
    pub(crate) fn lead(&mut self, place: usize, node: u32) -> Result<bool, AllocError>
        ensures known { OnOk result ((n : ℕ) → node < n → AreKnown n self.old.links.items self.old.pairs.keys
            → AreKnown n self.new.links.items self.new.pairs.keys) }
        ensures starts { OnOk result (starts self.new.links.items ≡ starts self.old.links.items) }
    {
        let Some(here) = self.links.get(place) else {
            return Ok(false);
        };
        let link = (here.0, node, 1);
        if !self.is_free(link) {
            return Ok(false);
        }
        self.put(place, link)?;
        Ok(true)
    }

    /// Exchanges the second ends of two links, the other one turned round first where that is said, where that makes no loop
    /// and no parallel edge.
    pub(crate) fn exchange(
        &mut self,
        place: usize,
        other: usize,
        turned: bool,
    ) -> Result<(), AllocError> {
        let (Some(one), Some(two)) = (self.links.get(place), self.links.get(other)) else {
            return Ok(());
        };
        let (start, end) = if turned {
            (two.1, two.0)
        } else {
            (two.0, two.1)
        };
        let first = (one.0, end, 1);
        let second = (start, one.1, 1);
        if self.is_free(first) && self.is_free(second) {
            self.put(place, first)?;
            self.put(other, second)?;
        }
        Ok(())
    }
}
