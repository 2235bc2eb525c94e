//! What is cut in one round.
ghost use Rattle.std.specs.Prelude.{◌≡◌, ◌<◌, length, map, OnOk};
ghost use Rattle.rounds_plan.specs.Lockstep.{lockstep_states, state_in};
ghost use Rattle.run_cuts.specs.Cuts.{here_by, occasion, step_occasions};
ghost use Rattle.run_cuts.specs.Counting.{after_all, after_one};

use crate::nears::fill_nears;
use crate::tally::{Counted, note_all};
use crate::values::Node;
use link_net::NetRows;
use rounds_plan::state_at;
use rounds_walk::PlanRef;
use rule_check::{Near, State};
use std::alloc::AllocError;

/// Notes what is cut at a node, in the step from a round with these states. The neighbours stand in a list that is lent.
fn count_node(
    plan: &PlanRef<'_>,
    rows: &NetRows<'_>,
    states: &[State],
    round: u32,
    node: u32,
    nears: &mut Vec<Near>,
    counted: &mut [Counted<'_>],
) -> Result<(), AllocError>
    requires rows { rows.now ≡ plan.now.network }
    requires room { round < 4294967295 }
    ensures exact { OnOk result (counted.new ≡ map (after_one (here_by plan.now.program plan.now.network round (state_in states.now) node) (occasion round node)) counted.old) }
{
    fill_nears(nears, rows, states, node)?;
    let place = Node {
        program: plan.program(),
        round,
        id: node,
        own: state_at(states, node),
        nears: nears.as_slice(),
    };
    note_all(counted, &place);
    Ok(())
}

/// Notes what is cut at all nodes, in the step from a round with these states.
pub(crate) fn count_step(
    plan: &PlanRef<'_>,
    states: &[State],
    round: u32,
    nears: &mut Vec<Near>,
    counted: &mut [Counted<'_>],
) -> Result<(), AllocError>
    requires room { round < 4294967295 }
    requires states { states.now ≡ lockstep_states plan.now round (length plan.now.network) }
    ensures exact { OnOk result (counted.new ≡ map (after_all (λ op. step_occasions plan.now op round)) counted.old) }
{
    let rows = plan.rows();
    let nodes = rows.nodes();
    for node in 0..nodes {
        count_node(plan, &rows, states, round, node, nears, counted)?;
    }
    Ok(())
}
