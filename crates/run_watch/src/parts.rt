//! Configurations as they are shown.
ghost use Rattle.std.specs.Prelude.{◌≡◌, ◌++◌, ◌<◌, if◌then◌else◌, All, OnOk, length, slice_index_or, string_bytes};
ghost use Rattle.std.specs.List.{flat_map};
ghost use Rattle.rule_check.specs.Value.{names_of};
ghost use Rattle.link_net.specs.Neighbours.{numbers_below};
ghost use Rattle.rounds_plan.specs.Configs.{blank};
ghost use Rattle.run_watch.specs.Watching.{head_text, node_text, part_text, shown_nodes};

use crate::changes::is_shown;
use crate::rows::put_row;
use crate::show::{Format, Show};
use rounds_plan::RoundStates;
use rule_check::{Program, State};
use std::alloc::AllocError;

/// 1 where it is so, else 0.
fn one_where(is_so: bool) -> u32
    ensures { result ≡ (if is_so then 1 else 0) }
{
    if is_so { 1 } else { 0 }
}

/// How many nodes are shown.
fn count_shown(show: &Show<'_>, before: &[State], config: &RoundStates) -> u32
    ensures count { result ≡ length (shown_nodes show.now before.now config.now.states) }
{
    // For the proof: how many nodes there may be.
    let _rounds = config.rounds();
    let mut count = 0;
    for (node, state) in config.states().iter().enumerate() {
        count += one_where(is_shown(show, before, node as u32, state));
    }
    count
}

/// What stands before the lines of the nodes.
fn put_head(out: &mut String, show: &Show<'_>, round: u32, count: u32) -> Result<(), AllocError>
    ensures text { OnOk result (string_bytes out.new ≡ string_bytes out.old ++ head_text show.now.format show.now.changes round count) }
{
    if show.format != Format::Report {
        return Ok(());
    }
    write!(out, "round {round}\n")?;
    if show.changes {
        write!(out, "changed {count}\n")?;
    }
    Ok(())
}

/// The line of a node, where it is shown.
fn put_node(
    out: &mut String,
    show: &Show<'_>,
    program: &Program,
    before: &[State],
    config: &RoundStates,
    node: u32,
    state: &State,
) -> Result<(), AllocError>
    requires fields { All (λ place. place < length program.now.fields) show.now.fields.now }
    requires state { (slice_index_or config.now.states node blank) ≡ state.now }
    ensures text { OnOk result (string_bytes out.new ≡ string_bytes out.old ++ node_text show.now (names_of program.now) before.now config.now node) }
{
    if is_shown(show, before, node, state) {
        put_row(out, show, program, config.rounds(), node, state)?;
    }
    Ok(())
}

/// The lines of the nodes that are shown.
fn put_nodes(
    out: &mut String,
    show: &Show<'_>,
    program: &Program,
    before: &[State],
    config: &RoundStates,
) -> Result<(), AllocError>
    requires fields { All (λ place. place < length program.now.fields) show.now.fields.now }
    ensures text { OnOk result (string_bytes out.new ≡ string_bytes out.old ++ flat_map (node_text show.now (names_of program.now) before.now config.now) (numbers_below (length config.now.states))) }
{
    // For the proof: how many nodes there may be.
    let _rounds = config.rounds();
    for (node, state) in config.states().iter().enumerate() {
        put_node(out, show, program, before, config, node as u32, state)?;
    }
    Ok(())
}

/// A configuration as it is shown, the states of the round that was shown before being these, or none.
pub(crate) fn put_part(
    out: &mut String,
    show: &Show<'_>,
    program: &Program,
    before: &[State],
    config: &RoundStates,
) -> Result<(), AllocError>
    requires fields { All (λ place. place < length program.now.fields) show.now.fields.now }
    ensures text { OnOk result (string_bytes out.new ≡ string_bytes out.old ++ part_text show.now (names_of program.now) before.now config.now) }
{
    put_head(
        out,
        show,
        config.rounds(),
        count_shown(show, before, config),
    )?;
    put_nodes(out, show, program, before, config)
}
