//! What a page shows of a run.

use run_settle::Settling;
use run_watch::Span;
use unison_world::Step;

/// The greatest number of values of a page.
pub const MOST_VALUES: u64 = 20_000_000;

/// What is shown of a run.
#[derive(Clone, Copy)]
pub struct Look<'a> {
    /// The places of the fields that are shown, in this order.
    pub fields: &'a [u32],
    /// For each field of the program, in their order, the names of its values 0, 1, 2, ..; an empty list where there are none.
    pub names: &'a [Vec<String>],
    /// The names of the nodes, by the numbers of the nodes; none where nodes have no names.
    pub labels: &'a [String],
    /// How many nodes stand in a row, where the nodes are drawn as a grid.
    pub grid: Option<u32>,
}

/// What a page shows of rounds.
#[derive(Clone, Copy)]
pub struct PageRounds<'a> {
    /// The rounds.
    pub span: &'a Span,
    /// What becomes of the rounds of the run, where it is known.
    pub settling: Option<Settling>,
    /// What is shown of them.
    pub look: &'a Look<'a>,
}

/// What a page shows of steps.
#[derive(Clone, Copy)]
pub(crate) struct PageSteps<'a> {
    /// The stop up to which nodes move.
    pub(crate) stop: u32,
    /// The steps, in order.
    pub(crate) steps: &'a [Step],
    /// The rounds that nodes reach by them.
    pub(crate) span: &'a Span,
    /// What is shown of them.
    pub(crate) look: &'a Look<'a>,
}
