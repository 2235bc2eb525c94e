//! Results that are put into a world.
ghost use Rattle.std.specs.Prelude.{◌≡◌, ℕ, ◌≤◌, ◌<◌, ◌↔◌, IsTrue, true, length, ◌&&◌};
ghost use Rattle.rounds_plan.specs.Configs.{most_rounds};
ghost use Rattle.unison_world.specs.Counting.{InStep};
ghost use Rattle.unison_world.specs.Pictures.{IsDrawn, counts_of};
ghost use Rattle.unison_world.specs.PictureViews.{view_of};
ghost use Rattle.unison_world.specs.Work.{Fits, IsPutAnswer, after_put};

use crate::events::ask_write;
use crate::node::Node;
use crate::step::{Answer, WriteAnswer};
use crate::work::{Done, Work};
use rounds_plan::SimplePlan;
use rule_check::{State, Sums};

/// Whether two states are equal.
fn are_same(left: &State, right: &State) -> bool
    ensures { IsTrue result ↔ (left.now ≡ right.now) }
{
    left == right
}

/// Whether two rows of aggregates are equal.
fn sums_same(left: &Sums, right: &Sums) -> bool
    ensures { IsTrue result ↔ (left.now ≡ right.now) }
{
    left == right
}

/// Whether a result was computed from what stands here for its node.
fn fits(plan: &SimplePlan<'_>, nodes: &Vec<Node>, work: &Work) -> bool
    requires drawn { IsDrawn plan.now nodes.now.items }
    requires node { work.now.node < length nodes.now.items }
    ensures fits { (stop : ℕ) → IsTrue result ↔ Fits (view_of plan.now stop nodes.now.items) work.now }
{
    let this = &nodes[work.node as usize];
    if !work.plan.program().same(plan.program()) {
        return false;
    }
    if work.round != this.moves {
        return false;
    }
    if work.degree != this.desk.degree() {
        return false;
    }
    if !are_same(&work.own, &this.register.now()) {
        return false;
    }
    sums_same(&work.sums, &this.desk.sums())
}

/// The answer to a result, with nothing changed.
pub fn ask_put(plan: &SimplePlan<'_>, stop: u32, nodes: &Vec<Node>, done: &Done) -> WriteAnswer
    requires drawn { IsDrawn plan.now nodes.now.items }
    ensures answer { IsPutAnswer (view_of plan.now stop nodes.now.items) done.now.work result }
{
    match ask_write(plan, stop, nodes, done.node()) {
        Answer::NoNode => WriteAnswer::NoNode,
        Answer::Stopped => WriteAnswer::Stopped,
        Answer::Moved => {
            if fits(plan, nodes, done.work()) {
                WriteAnswer::Moved
            } else {
                WriteAnswer::Stale
            }
        }
        _ => WriteAnswer::NotReady,
    }
}

/// A node moves to a result, where it fits.
pub fn put(plan: &SimplePlan<'_>, stop: u32, nodes: &mut Vec<Node>, done: &Done) -> WriteAnswer
    requires drawn { IsDrawn plan.now nodes.old.items }
    requires in_step { InStep plan.now.network stop (counts_of nodes.old.items) }
    requires limit { stop ≤ most_rounds }
    ensures answer { IsPutAnswer (view_of plan.now stop nodes.old.items) done.now.work result }
    ensures counts { view_of plan.now stop nodes.new.items ≡ after_put (view_of plan.now stop nodes.old.items) done.now.work result }
    ensures drawn { IsDrawn plan.now nodes.new.items }
{
    let answer = ask_put(plan, stop, nodes, done);
    if let WriteAnswer::Moved = answer {
        let node = done.node() as usize;
        let state = done.state();
        nodes[node].advance(plan.program(), state);
    }
    answer
}
