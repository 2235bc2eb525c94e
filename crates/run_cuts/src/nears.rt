//! The neighbours of a node, as its rules see them.
ghost use Rattle.std.specs.Prelude.{◌≡◌, ◌+◌, ◌≤◌, ◌++◌, length, OnOk};
ghost use Rattle.rounds_plan.specs.Lockstep.{nears_in, state_in};
ghost use Rattle.run_cuts.specs.Counting.{nears_from};

use link_net::NetRows;
use rounds_plan::state_at;
use rule_check::{Near, State};
use std::alloc::AllocError;

/// Puts neighbours, with the weights of the links to them and their states among these.
fn put_nears(
    nears: &mut Vec<Near>,
    states: &[State],
    neighbours: &[u32],
    weights: &[u32],
) -> Result<(), AllocError>
    requires pairs { length weights.now ≡ length neighbours.now }
    ensures exact { OnOk result (nears.new.items ≡ nears.old.items ++ nears_from (state_in states.now) neighbours.now weights.now) }
    ensures count { OnOk result (length nears.new.items ≡ length nears.old.items + length neighbours.now) }
{
    for (slot, neighbour) in neighbours.iter().enumerate() {
        let id = *neighbour;
        let state = state_at(states, id);
        let weight = weights[slot];
        nears.push(Near { id, weight, state })?;
    }
    Ok(())
}

/// Puts the neighbours of a node in place of those that are there.
#[tactic(auto, using(crate::proofs::Standing::nears_of_row))]
pub(crate) fn fill_nears(
    nears: &mut Vec<Near>,
    rows: &NetRows<'_>,
    states: &[State],
    node: u32,
) -> Result<(), AllocError>
    ensures exact { OnOk result (nears.new.items ≡ nears_in rows.now (state_in states.now) node) }
    ensures few { OnOk result (length nears.new.items ≤ 4294967295) }
{
    nears.clear();
    // For the proof: how many neighbours a node may have.
    let _degree = rows.degree_of(node);
    let (neighbours, weights) = rows.row_of(node);
    put_nears(nears, states, neighbours, weights)?;
    Ok(())
}
