//! Replay reports.
ghost use Rattle.std.specs.Prelude.{◌≡◌, ◌++◌, ◌<◌, OnOk, IfOk, string_bytes, length};
ghost use Rattle.unison_trace.specs.Replays.{replay_line, replay_text};

use report_text::put_fields;
use rounds_plan::Plan;
use rule_check::Program;
use std::alloc::{AllocError, Global};
use unison_world::World;

/// The line of a node.
fn put_node(out: &mut String, program: &Program, world: &World, node: u32) -> Result<(), AllocError>
    requires program { world.now.plan.program ≡ program.now }
    requires node { node < length world.now.plan.network }
    ensures line { OnOk result (string_bytes out.new ≡ string_bytes out.old ++ replay_line world.now.plan world.now.counts node) }
{
    let moves = world.moves(node).unwrap();
    let state = world.state(node).unwrap();
    write!(out, "{node} moves {moves}")?;
    put_fields(out, program, &state)?;
    out.push_str("\n")
}

/// The replay report of a world of this plan: for each node by rising number a line of its number, how often it has
/// moved, and its fields with their values.
pub fn replay_report(alloc: Global, plan: &Plan, world: &World) -> Result<Vec<u8>, AllocError>
    requires plan { world.now.plan ≡ plan.now }
    ensures text { IfOk result (λ v. v.items ≡ replay_text world.now.plan world.now.counts) }
{
    let mut out = String::new(alloc);
    for node in 0..world.nodes() {
        put_node(&mut out, plan.program(), world, node)?;
    }
    Ok(out.into_bytes())
}
