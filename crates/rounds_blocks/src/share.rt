//! A thread's share of each round.
ghost use Rattle.std.specs.Prelude.{◌≡◌, length};
ghost use Rattle.rounds_blocks.specs.Walks.{IsTask, IsShare, HasNext, HoldsOfDue};

use crate::round::step_due;
use crate::spans::Span;
use crate::task::Task;
use rounds_code::Block;

/// A thread's share of each round: the batches from the first one on to the one after the last, what computes their
/// nodes' next states, and the columns that these are written to. Where the nodes of shares are ranges, these are those from `low` on to
/// the one before `high`, and the share has no columns: it writes to its range of the one column that the program has.
#[derive(Drop)]
pub struct Share<'a> {
    pub first: usize,
    pub behind: usize,
    pub low: usize,
    pub high: usize,
    pub block: Block<'a>,
    pub columns: Vec<Vec<u32>>,
}

/// What threads share.
#[derive(Drop)]
pub struct Shares<'a> {
    /// One for each thread; none where rounds are not shared.
    pub all: Vec<Share<'a>>,
    /// Whether their nodes are ranges, one after the other.
    pub in_ranges: bool,
    /// Where they are not: what of the shares' words is copied at once.
    pub spans: Vec<Span>,
}

/// Computes the next states of the nodes of a share's batches, as far as these have to be computed.
pub fn work(task: &Task<'_>, share: &mut Share<'_>)
    requires task { IsTask share.old.block.rules task.now }
    requires share { IsShare share.old.block.rules (length task.now.network.now) (length task.now.batches.now) share.old }
    ensures share { IsShare share.old.block.rules (length task.now.network.now) (length task.now.batches.now) share.new }
    ensures first { share.new.first ≡ share.old.first }
    ensures behind { share.new.behind ≡ share.old.behind }
    ensures done { HoldsOfDue (HasNext share.old.block.rules task.now share.new.columns.items) task.now share.new.first share.new.behind }
{
    step_due(
        task,
        share.first,
        share.behind,
        &mut share.block,
        &mut share.columns,
    );
}
