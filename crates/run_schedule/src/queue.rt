//! Steps that may be open, in the order in which they are tried. Nothing that is promised of a list rests on this: each step is
//! made only where it is open, and a list ends only where all steps were looked at.

use crate::walk::Walk;
use link_net::Network;
use rand::RngExt;
use rand_core::SeedableRng;
use rand_pcg::Pcg64;
use std::alloc::{AllocError, Global};
use std::collections::VecDeque;
use unison_world::Step;

/// One of so many links is slow.
const SLOW: u32 = 4;

/// Which of the steps comes next.
#[derive(Drop)]
pub(crate) enum Order {
    /// The one that was put first.
    InTurn,
    /// One that is drawn.
    ByLot(Pcg64),
}

/// Steps that may be open: those that are to be tried now, and reads of slow links, which are tried where there are no others.
/// For each node it is known how many of its slots are still to be read.
#[derive(Drop)]
pub(crate) struct Queue {
    order: Order,
    slow: Option<u64>,
    now: VecDeque<Step>,
    later: VecDeque<Step>,
    unread: Vec<u32>,
}

/// The next of some steps, taken out of them.
fn next_of(order: &mut Order, steps: &mut VecDeque<Step>) -> Option<Step> {
    let count = steps.len();
    if let Order::ByLot(rng) = order {
        if count > 1 {
            let place = rng.random_range(0..count);
            steps.swap(0, place);
        }
    }
    steps.pop_front()
}

/// Whether a seed makes the link between two nodes a slow one: the same from both its ends.
fn is_slow(seed: u64, one: u32, other: u32) -> bool {
    let low = one.min(other) as u64;
    let high = one.max(other) as u64;
    let link = low.wrapping_mul(1 << 32).wrapping_add(high);
    let mut rng = Pcg64::seed_from_u64(seed ^ link.wrapping_mul(0x9E37_79B9_7F4A_7C15));
    rng.random_range(0..SLOW) == 0
}

impl Queue {
    /// No steps, and all slots of the network still to be read. A seed makes some links slow.
    pub(crate) fn new(
        alloc: Global,
        network: &Network,
        order: Order,
        slow: Option<u64>,
    ) -> Result<Queue, AllocError> {
        let mut unread = Vec::new(alloc);
        for node in 0..network.nodes() {
            unread.push(network.degree_of(node))?;
        }
        Ok(Queue {
            order,
            slow,
            now: VecDeque::new(alloc),
            later: VecDeque::new(alloc),
            unread,
        })
    }

    /// Whether a step reads a slow link.
    fn is_late(&self, network: &Network, step: Step) -> bool {
        let (Some(seed), Step::Read { node, slot }) = (self.slow, step) else {
            return false;
        };
        match network.neighbour(node, slot) {
            Some(neighbour) => is_slow(seed, node, neighbour),
            None => false,
        }
    }

    /// Puts a step.
    fn put(&mut self, network: &Network, step: Step) -> Result<(), AllocError> {
        if self.is_late(network, step) {
            self.later.push_back(step)?;
        } else {
            self.now.push_back(step)?;
        }
        Ok(())
    }

    /// Puts some steps.
    pub(crate) fn put_all(&mut self, network: &Network, steps: &[Step]) -> Result<(), AllocError> {
        for step in steps {
            self.put(network, *step)?;
        }
        Ok(())
    }

    /// The step to be tried next.
    pub(crate) fn next(&mut self) -> Option<Step> {
        match next_of(&mut self.order, &mut self.now) {
            Some(step) => Some(step),
            None => next_of(&mut self.order, &mut self.later),
        }
    }

    /// Puts a step, where it is open.
    fn try_put(&mut self, walk: &Walk, step: Step) -> Result<(), AllocError> {
        if walk.is_open(step) {
            self.put(walk.network(), step)?;
        }
        Ok(())
    }

    /// A node has read a slot: where it was the last, its write is open.
    fn after_read(&mut self, walk: &Walk, node: u32) -> Result<(), AllocError> {
        let Some(unread) = self.unread.get_mut(node as usize) else {
            return Ok(());
        };
        *unread = unread.saturating_sub(1);
        if *unread == 0 {
            self.try_put(walk, Step::Write { node })?;
        }
        Ok(())
    }

    /// A node has moved: its read of a neighbour may be open, and so may the neighbour's of it, where that one was ahead.
    fn meet(
        &mut self,
        walk: &Walk,
        node: u32,
        slot: u32,
        neighbour: u32,
    ) -> Result<(), AllocError> {
        self.try_put(walk, Step::Read { node, slot })?;
        if walk.moves(neighbour) == walk.moves(node) {
            if let Some(back) = walk.network().slot_of(neighbour, node) {
                let read = Step::Read {
                    node: neighbour,
                    slot: back,
                };
                self.try_put(walk, read)?;
            }
        }
        Ok(())
    }

    /// A node has moved: all its slots are to be read again.
    fn after_write(&mut self, walk: &Walk, node: u32) -> Result<(), AllocError> {
        let neighbours = walk.network().neighbours(node).unwrap_or(&[]);
        if let Some(unread) = self.unread.get_mut(node as usize) {
            *unread = walk.network().degree_of(node);
        }
        if neighbours.is_empty() {
            return self.try_put(walk, Step::Write { node });
        }
        for (slot, neighbour) in neighbours.iter().enumerate() {
            self.meet(walk, node, slot as u32, *neighbour)?;
        }
        Ok(())
    }

    /// Puts the steps that may be open after this one was made, and were not before.
    pub(crate) fn after(&mut self, walk: &Walk, step: Step) -> Result<(), AllocError> {
        match step {
            Step::Read { node, .. } => self.after_read(walk, node),
            Step::Write { node } => self.after_write(walk, node),
        }
    }
}
