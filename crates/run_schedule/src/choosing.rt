//! The nodes that a daemon chooses.
ghost use Rattle.std.specs.Prelude.{◌≡◌, ◌≢◌, ◌∷◌, [], ℕ, None, true, IfOk, IfSome, IfNone};
ghost use Rattle.run_schedule.specs.declared.daemon.Daemon.TheVariants.{Adversary, Central, Distributed, Synchronous};
ghost use Rattle.run_schedule.specs.Daemons.{AreChosen, KeepsTwo, NoneFree, is_free};

use crate::daemon::Daemon;
use crate::enabled::{drawn_nodes, free_nodes, is_free};
use crate::walk::Walk;
use rand::RngExt;
use rand_core::SeedableRng;
use rand_pcg::Pcg64;
use std::alloc::{AllocError, Global};

/// By what nodes are drawn, and those that may be enabled: where there are some, no others are. Nothing that is promised rests
/// on this: each is looked at again before it is chosen, and where there is none, all nodes are.
#[derive(Drop)]
pub(crate) struct Draws {
    rng: Pcg64,
    waiting: Vec<u32>,
}

/// The seed of a daemon; 0 where it draws nothing.
fn seed_of(daemon: Daemon) -> u64 {
    match daemon {
        Daemon::Central { seed } => seed,
        Daemon::Synchronous => 0,
        Daemon::Distributed { seed, .. } => seed,
        Daemon::Adversary { seed, .. } => seed,
    }
}

/// A list of one node.
fn just(alloc: Global, node: u32) -> Result<Vec<u32>, AllocError>
    ensures one { IfOk result (λ v. v.items ≡ node ∷ []) }
{
    let mut one = Vec::new(alloc);
    one.push(node)?;
    Ok(one)
}

/// All nodes that are enabled.
fn all_enabled(alloc: Global, walk: &Walk) -> Result<Vec<u32>, AllocError>
    ensures chosen { IfOk result (λ v. AreChosen walk.now.world Synchronous v.items) }
{
    free_nodes(alloc, walk, None)
}

impl Draws {
    /// No node that may be enabled is known.
    pub(crate) fn new(alloc: Global, daemon: Daemon) -> Draws {
        Draws {
            rng: Pcg64::seed_from_u64(seed_of(daemon)),
            waiting: Vec::new(alloc),
        }
    }

    /// One of the waiting nodes that is drawn, taken out of them.
    fn next(&mut self) -> Option<u32> {
        if self.waiting.is_empty() {
            return None;
        }
        let place = self.rng.random_range(0..self.waiting.len());
        Some(self.waiting.swap_remove(place))
    }

    /// The first of the waiting nodes that is free, as they are drawn.
    fn next_free(&mut self, walk: &Walk, but: Option<u32>) -> Option<u32>
        ensures free { IfSome result (λ u. is_free walk.now.world but u ≡ true) }
    {
        for _ in 0..self.waiting.len() {
            let node = self.next()?;
            if is_free(walk, but, node) {
                return Some(node);
            }
        }
        None
    }

    /// A free node that is drawn, where there is one.
    fn one_free(
        &mut self,
        alloc: Global,
        walk: &Walk,
        but: Option<u32>,
    ) -> Result<Option<u32>, AllocError>
        ensures free { IfOk result (λ o. IfSome o (λ u. is_free walk.now.world but u ≡ true)) }
        ensures none { IfOk result (λ o. IfNone o (NoneFree walk.now.world but)) }
    {
        if let Some(node) = self.next_free(walk, but) {
            return Ok(Some(node));
        }
        let mut free = free_nodes(alloc, walk, but)?;
        if free.is_empty() {
            return Ok(None);
        }
        let place = self.rng.random_range(0..free.len());
        let node = free.swap_remove(place);
        self.waiting = free;
        Ok(Some(node))
    }

    /// One node of all that are enabled.
    fn chosen_one(&mut self, alloc: Global, walk: &Walk) -> Result<Vec<u32>, AllocError>
        ensures chosen { IfOk result (λ v. (seed : ℕ) → AreChosen walk.now.world (Central seed) v.items) }
    {
        match self.one_free(alloc, walk, None)? {
            Some(node) => just(alloc, node),
            None => Ok(Vec::new(alloc)),
        }
    }

    /// The enabled nodes that are drawn, or one of them where none came.
    fn chosen_share(
        &mut self,
        alloc: Global,
        walk: &Walk,
        share: u32,
    ) -> Result<Vec<u32>, AllocError>
        ensures chosen { IfOk result (λ v. (seed : ℕ) → AreChosen walk.now.world (Distributed seed share) v.items) }
    {
        let drawn = drawn_nodes(alloc, walk, &mut self.rng, share)?;
        if !drawn.is_empty() {
            return Ok(drawn);
        }
        match self.one_free(alloc, walk, None)? {
            Some(node) => just(alloc, node),
            None => Ok(Vec::new(alloc)),
        }
    }

    /// The one neighbour where it is enabled, and the other only where no other node is.
    fn chosen_against(
        &mut self,
        alloc: Global,
        walk: &Walk,
        ahead: u32,
        behind: u32,
    ) -> Result<Vec<u32>, AllocError>
        requires apart { ahead ≢ behind }
        ensures chosen { IfOk result (λ v. (seed : ℕ) → AreChosen walk.now.world (Adversary seed ahead behind) v.items) }
    {
        if is_free(walk, None, ahead) {
            return just(alloc, ahead);
        }
        if let Some(node) = self.one_free(alloc, walk, Some(behind))? {
            return just(alloc, node);
        }
        if is_free(walk, None, behind) {
            return just(alloc, behind);
        }
        Ok(Vec::new(alloc))
    }

    /// The nodes that a daemon chooses; none where no node is enabled.
    pub(crate) fn chosen(
        &mut self,
        alloc: Global,
        walk: &Walk,
        daemon: Daemon,
    ) -> Result<Vec<u32>, AllocError>
        requires two { KeepsTwo daemon }
        ensures chosen { IfOk result (λ v. AreChosen walk.now.world daemon v.items) }
    {
        match daemon {
            Daemon::Central { .. } => self.chosen_one(alloc, walk),
            Daemon::Synchronous => all_enabled(alloc, walk),
            Daemon::Distributed { share, .. } => self.chosen_share(alloc, walk, share),
            Daemon::Adversary { ahead, behind, .. } => {
                self.chosen_against(alloc, walk, ahead, behind)
            }
        }
    }

    /// Puts a node to the waiting ones, where it is enabled.
    fn put(&mut self, walk: &Walk, node: u32) -> Result<(), AllocError> {
        if is_free(walk, None, node) {
            self.waiting.push(node)?;
        }
        Ok(())
    }

    /// A node has moved: it may be enabled again, and so may a neighbour that was ahead of it.
    fn after_one(&mut self, walk: &Walk, node: u32) -> Result<(), AllocError> {
        self.put(walk, node)?;
        for neighbour in walk.network().neighbours_of(node) {
            if walk.moves(*neighbour) == walk.moves(node) {
                self.put(walk, *neighbour)?;
            }
        }
        Ok(())
    }

    /// Puts the nodes that are enabled after these have moved, and were not before. After several all are looked at again.
    pub(crate) fn after(&mut self, walk: &Walk, moved: &[u32]) -> Result<(), AllocError> {
        if moved.len() == 1 {
            return self.after_one(walk, moved[0]);
        }
        self.waiting.clear();
        Ok(())
    }
}
