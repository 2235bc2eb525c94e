//! Networks for Graphviz.
ghost use Rattle.std.specs.Prelude.{◌≡◌, ◌≢◌, ◌≤◌, ◌++◌, Err, IfOk, IfErr, MatchOption, None, OnOk, Some, length, map, string_bytes};
ghost use Rattle.run_picture.specs.declared.fault.PictureFault.TheVariants.{Memory};
ghost use Rattle.run_picture.specs.Drawn.{IsNetworkText, graph_text, head_text};
ghost use Rattle.run_picture.specs.Frames.{refusal_of, values_after};
ghost use Rattle.run_picture.specs.Keys.{key_of};

use crate::drawing::Colouring;
use crate::fault::PictureFault;
use crate::graph::put_nodes;
use crate::key::key_of;
use crate::links::put_network;
use crate::styles::ValueStyles;
use crate::values::{refusal, values_after};
use link_net::Network;
use rounds_plan::Plan;
use rounds_walk::PlanRef;
use std::alloc::{AllocError, Global};
use std::thread::Threads;

/// The first lines.
#[tactic(auto, unfolding(crate::specs::Drawn::head_text))]
fn put_head(out: &mut String, round: u32) -> Result<(), AllocError>
    ensures text { OnOk result (string_bytes out.new ≡ string_bytes out.old ++ head_text round) }
{
    write!(
        out,
        "graph run {{\n  label=\"round {round}\";\n  node [shape=circle, style=filled];\n"
    )
}

/// A network with a value at each node, after a round.
fn graph_of(
    alloc: Global,
    styles: &ValueStyles<'_>,
    network: &Network,
    labels: &[String],
    round: u32,
    values: &[u32],
) -> Result<Vec<u8>, AllocError>
    requires few { length values.now ≤ 65536 }
    ensures text { IfOk result (λ v. v.items ≡ graph_text (key_of styles.now values.now) network.now (map string_bytes labels.now) round values.now) }
{
    let key = key_of(alloc, styles, values)?;
    let mut out = String::new(alloc);
    put_head(&mut out, round)?;
    put_nodes(&mut out, &key, labels, values)?;
    put_network(&mut out, network)?;
    out.push_str("}\n")?;
    Ok(out.into_bytes())
}

/// The text for Graphviz, where nothing refuses it.
fn text_of(
    rt: &(impl Threads + Sync),
    alloc: Global,
    plan: &Plan,
    round: u32,
    colouring: &Colouring<'_>,
    labels: &[String],
) -> Result<Vec<u8>, AllocError>
    requires fits { refusal_of plan.now round round colouring.now.field ≡ None }
    ensures text { IfOk result (λ v. v.items ≡ graph_text (key_of colouring.now.styles.now (values_after plan.now colouring.now.field round)) plan.now.network (map string_bytes labels.now) round (values_after plan.now colouring.now.field round)) }
{
    // For the proof: how many nodes a plan may have.
    let _phase = plan.phase();
    let lent = PlanRef::of_plan(plan);
    let values = values_after(rt, alloc, &lent, round, colouring.field)?;
    let styles = colouring.styles;
    graph_of(alloc, styles, plan.network(), labels, round, &values)
}

/// The network of a plan for Graphviz, with the values of a field after a round: an undirected graph with a line for
/// each node by rising number, its label the node's name with its value below, named and coloured as in `time_picture`, and
/// a line for each link, from the lesser number to the greater, with its weight where that is not 1: each link has one,
/// as `each_link_is_drawn_once` says. A node is called by its label among these, and past the last label by its number;
/// a value of 4294967295 is shown as `none`.
///
/// `TooManyRounds` comes where the round is above 1,000,000,000, else `RoundsBelowStart` where it lies before the
/// plan's start, and else `NoField` where the program has no field at this place, all before anything is done; `Memory`
/// only where none of them holds.
pub fn network_dot(
    rt: &(impl Threads + Sync),
    alloc: Global,
    plan: &Plan,
    round: u32,
    colouring: &Colouring<'_>,
    labels: &[String],
) -> Result<Vec<u8>, PictureFault>
    ensures text { IfOk result (λ v. IsNetworkText plan.now round colouring.now (map string_bytes labels.now) v.items) }
    ensures fits { IfOk result (λ _. refusal_of plan.now round round colouring.now.field ≡ None) }
    ensures refused { IfErr result (λ fault. fault ≢ Memory → refusal_of plan.now round round colouring.now.field ≡ Some fault) }
    ensures memory { IfErr result (λ fault. fault ≡ Memory → refusal_of plan.now round round colouring.now.field ≡ None) }
    ensures at_once { MatchOption (refusal_of plan.now round round colouring.now.field) (Unit {0}) (λ fault. result ≡ Err fault) }
{
    let lent = PlanRef::of_plan(plan);
    if let Some(fault) = refusal(&lent, round, round, colouring.field) {
        return Err(fault);
    }
    let text = text_of(rt, alloc, plan, round, colouring, labels)?;
    Ok(text)
}
