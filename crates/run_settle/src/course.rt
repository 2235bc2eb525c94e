//! What a search goes over.
ghost use Rattle.std.specs.Prelude.{◌≡◌, IfOk};
ghost use Rattle.run_settle.specs.Searching.{LeadsInside};

use rounds_walk::{RoundWalk, Start};
use std::alloc::{AllocError, Global};

/// The rounds of a start, as walks make them: in this way, shared among so many threads where it shares them.
#[derive(Drop)]
pub(crate) struct Course<'a, W> {
    pub(crate) start: &'a Start<'a>,
    pub(crate) way: &'a W,
    pub(crate) threads: usize,
}

impl<'a, W> Course<'a, W> {
    /// The round of the initial states, counted from round 0.
    pub(crate) fn first_round(&self) -> u32
        ensures start { result ≡ self.now.start.now.start }
        ensures inside { LeadsInside self.now.start.now.network }
    {
        // For the proof: what holds of every start.
        let _nodes = self.start.nodes();
        self.start.start()
    }

    /// A walk that stands at the start.
    pub(crate) fn begin(&self, alloc: Global) -> Result<RoundWalk<'a>, AllocError>
        ensures start { IfOk result (λ walk. walk ≡ record { plan = self.now.start.now; round = self.now.start.now.start }) }
    {
        let walk = self.start.shared_walk(alloc, self.threads)?;
        Ok(walk)
    }
}
