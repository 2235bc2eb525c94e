//! How often operators are cut.
ghost use Rattle.std.specs.Prelude.{◌≡◌, ◌≤◌, ◌<◌, length, map};
ghost use Rattle.run_cuts.specs.Cuts.{occasion};
ghost use Rattle.run_cuts.specs.Counting.{after_one, here_of, noted};

use crate::operators::Operator;
use crate::values::{Node, is_cut};

/// On how many occasions an operator was cut, and the first one.
#[derive(Clone, Copy)]
pub(crate) struct Tally {
    pub(crate) times: u64,
    pub(crate) round: u32,
    pub(crate) node: u32,
}

/// An operator with its number, and how often it was cut.
#[derive(Clone, Copy)]
pub(crate) struct Counted<'a> {
    pub(crate) number: usize,
    pub(crate) operator: Operator<'a>,
    pub(crate) tally: Tally,
}

/// One occasion more.
fn note(tally: &mut Tally, round: u32, node: u32)
    ensures exact { tally.new ≡ noted tally.old (record { round = round; node = node }) }
{
    if tally.times == 0 {
        tally.round = round;
        tally.node = node;
    }
    tally.times = tally.times.saturating_add(1);
}

/// Notes an operator where it is cut at a node, in the round that is made.
fn note_one(counted: &mut Counted<'_>, node: &Node<'_>)
    requires few { length node.now.nears.now ≤ 4294967295 }
    requires room { node.now.round < 4294967295 }
    ensures exact { counted.new ≡ after_one (here_of node.now) (occasion node.now.round node.now.id) counted.old }
{
    if is_cut(node, counted.operator) {
        note(&mut counted.tally, node.round + 1, node.id);
    }
}

/// Notes those of the operators that are cut at a node.
pub(crate) fn note_all(counted: &mut [Counted<'_>], node: &Node<'_>)
    requires few { length node.now.nears.now ≤ 4294967295 }
    requires room { node.now.round < 4294967295 }
    ensures exact { counted.new ≡ map (after_one (here_of node.now) (occasion node.now.round node.now.id)) counted.old }
{
    for each in counted.iter_mut() {
        note_one(each, node);
    }
}
