//! Steps in sentences, with the values of registers.
ghost use Rattle.std.specs.Prelude.{◌≡◌, ◌++◌, ◌<◌, codes, length, slice_index_or, [], IfOk, OnOk, string_bytes};
ghost use Rattle.std.specs.Fmt.{decimal};
ghost use Rattle.std.specs.Option.{option_map};
ghost use Rattle.link_net.specs.Neighbours.{degree};
ghost use Rattle.rule_check.specs.Value.{names_of};
ghost use Rattle.report_text.specs.Report.{fields_text};
ghost use Rattle.unison_world.specs.Counting.{moves_of};
ghost use Rattle.unison_world.specs.View.{answer_in, state_of, world_after};
ghost use Rattle.run_steps.specs.Previous.{HasPrevious};
ghost use Rattle.run_steps.specs.explain.Sentences.{called, look_sentence, look_words, no_node_words, read_sentence, reads_words, sentence, write_sentence};

use crate::explain::looks::{first_unread, slots_read};
use crate::explain::registers::{look, make};
use net_names::NodeNames;
use phase_register::Look;
use report_text::put_fields;
use rule_check::State;
use std::alloc::AllocError;
use unison_world::{Answer, Step, WorldRef};

/// The name of a node.
fn name_of(names: &NodeNames, node: u32) -> &str
    ensures { result.now ≡ slice_index_or names.now node [] }
{
    names.name(node).unwrap_or("")
}

/// What a node is called.
fn put_called(out: &mut String, names: Option<&NodeNames>, node: u32) -> Result<(), AllocError>
    ensures words { OnOk result (string_bytes out.new ≡ string_bytes out.old ++ called (option_map (λ n. n.now) names.entry) node) }
{
    match names {
        Some(names) => out.push_str(name_of(names, node)),
        None => write!(out, "node {node}"),
    }
}

/// The fields of a state.
fn put_state(out: &mut String, world: &WorldRef<'_>, state: State) -> Result<(), AllocError>
    ensures words { OnOk result (string_bytes out.new ≡ string_bytes out.old ++ fields_text (names_of world.now.plan.program) state.words) }
{
    put_fields(out, world.plan().program(), &state)
}

/// Who reads whom.
fn put_reads(
    out: &mut String,
    names: Option<&NodeNames>,
    node: u32,
    neighbour: u32,
) -> Result<(), AllocError>
    ensures words { OnOk result (string_bytes out.new ≡ string_bytes out.old ++ reads_words (option_map (λ n. n.now) names.entry) node neighbour) }
{
    put_called(out, names, node)?;
    out.push_str(" reads ")?;
    put_called(out, names, neighbour)?;
    Ok(())
}

/// What is taken of a neighbour that has moved as often.
fn put_level(out: &mut String, world: &WorldRef<'_>, taken: State) -> Result<(), AllocError>
    ensures words { OnOk result (string_bytes out.new ≡ string_bytes out.old ++ (codes ", which has moved as often: takes" ++ fields_text (names_of world.now.plan.program) taken.words)) }
{
    out.push_str(", which has moved as often: takes")?;
    put_state(out, world, taken)?;
    Ok(())
}

/// What a neighbour holds that is ahead.
fn put_holds(out: &mut String, world: &WorldRef<'_>, holds: State) -> Result<(), AllocError>
    ensures words { OnOk result (string_bytes out.new ≡ string_bytes out.old ++ (codes ", its previous state (it holds" ++ (fields_text (names_of world.now.plan.program) holds.words ++ codes ")"))) }
{
    out.push_str(", its previous state (it holds")?;
    put_state(out, world, holds)?;
    out.push_str(")")?;
    Ok(())
}

/// What is taken of a neighbour that is ahead, and what that one holds.
fn put_ahead(
    out: &mut String,
    world: &WorldRef<'_>,
    taken: State,
    holds: State,
) -> Result<(), AllocError>
    ensures words { OnOk result (string_bytes out.new ≡ string_bytes out.old ++ (codes ", which is one ahead: takes" ++ (fields_text (names_of world.now.plan.program) taken.words ++ (codes ", its previous state (it holds" ++ (fields_text (names_of world.now.plan.program) holds.words ++ codes ")"))))) }
{
    out.push_str(", which is one ahead: takes")?;
    put_state(out, world, taken)?;
    put_holds(out, world, holds)?;
    Ok(())
}

/// That a neighbour is behind.
fn put_behind(out: &mut String, names: Option<&NodeNames>, neighbour: u32) -> Result<(), AllocError>
    ensures words { OnOk result (string_bytes out.new ≡ string_bytes out.old ++ (codes ", which is one behind: waits until " ++ (called (option_map (λ n. n.now) names.entry) neighbour ++ codes " has moved"))) }
{
    out.push_str(", which is one behind: waits until ")?;
    put_called(out, names, neighbour)?;
    out.push_str(" has moved")?;
    Ok(())
}

/// What a reader sees of a neighbour.
fn put_look(
    out: &mut String,
    world: &WorldRef<'_>,
    names: Option<&NodeNames>,
    neighbour: u32,
    look: Look,
) -> Result<(), AllocError>
    requires neighbour { neighbour < length world.now.plan.network }
    ensures words { OnOk result (string_bytes out.new ≡ string_bytes out.old ++ look_words (names_of world.now.plan.program) (called (option_map (λ n. n.now) names.entry) neighbour) (state_of world.now neighbour) look) }
{
    match look {
        Look::Level(taken) => put_level(out, world, taken),
        Look::Ahead(taken) => put_ahead(out, world, taken, world.state(neighbour)),
        Look::Behind => put_behind(out, names, neighbour),
    }
}

/// The read of a neighbour, and what the reader sees.
fn put_seen(
    out: &mut String,
    world: &WorldRef<'_>,
    previous: &[State],
    names: Option<&NodeNames>,
    node: u32,
    neighbour: u32,
) -> Result<(), AllocError>
    requires neighbour { neighbour < length world.now.plan.network }
    requires previous { HasPrevious world.now previous.now }
    ensures words { OnOk result (string_bytes out.new ≡ string_bytes out.old ++ look_sentence (option_map (λ n. n.now) names.entry) world.now.plan world.now.counts node neighbour) }
{
    put_reads(out, names, node, neighbour)?;
    put_look(
        out,
        world,
        names,
        neighbour,
        look(world, previous, node, neighbour),
    )?;
    Ok(())
}

/// That there is no such node.
fn put_no_node(out: &mut String, world: &WorldRef<'_>, node: u32) -> Result<(), AllocError>
    ensures words { OnOk result (string_bytes out.new ≡ string_bytes out.old ++ no_node_words world.now.plan node) }
{
    let nodes = world.nodes();
    write!(
        out,
        "there is no node {node}: nodes are numbered below {nodes}"
    )
}

/// That a node has no such slot.
fn put_no_slot(
    out: &mut String,
    world: &WorldRef<'_>,
    names: Option<&NodeNames>,
    node: u32,
    slot: u32,
) -> Result<(), AllocError>
    ensures words { OnOk result (string_bytes out.new ≡ string_bytes out.old ++ (called (option_map (λ n. n.now) names.entry) node ++ (codes " has no slot " ++ (decimal slot ++ (codes ": its slots are numbered below " ++ decimal (degree world.now.plan.network node)))))) }
{
    let slots = world.plan().rows().degree_of(node);
    put_called(out, names, node)?;
    write!(
        out,
        " has no slot {slot}: its slots are numbered below {slots}"
    )?;
    Ok(())
}

/// That a node has read a neighbour since it last moved.
fn put_again(
    out: &mut String,
    names: Option<&NodeNames>,
    node: u32,
    neighbour: u32,
) -> Result<(), AllocError>
    ensures words { OnOk result (string_bytes out.new ≡ string_bytes out.old ++ (reads_words (option_map (λ n. n.now) names.entry) node neighbour ++ codes ", which it has read already: waits until it has moved itself")) }
{
    put_reads(out, names, node, neighbour)?;
    out.push_str(", which it has read already: waits until it has moved itself")?;
    Ok(())
}

/// That a node stands at the stop, and does not do what is asked of it.
fn put_stopped(
    out: &mut String,
    world: &WorldRef<'_>,
    names: Option<&NodeNames>,
    node: u32,
    verb: &str,
) -> Result<(), AllocError>
    ensures words { OnOk result (string_bytes out.new ≡ string_bytes out.old ++ (called (option_map (λ n. n.now) names.entry) node ++ (codes " does not " ++ (verb.now ++ (codes ": it stands at the stop, round " ++ decimal (moves_of world.now.counts node)))))) }
{
    let count = world.moves(node);
    put_called(out, names, node)?;
    write!(
        out,
        " does not {verb}: it stands at the stop, round {count}"
    )?;
    Ok(())
}

/// A read, by its answer.
fn put_read(
    out: &mut String,
    world: &WorldRef<'_>,
    previous: &[State],
    names: Option<&NodeNames>,
    node: u32,
    slot: u32,
    answer: Answer,
) -> Result<(), AllocError>
    requires previous { HasPrevious world.now previous.now }
    requires answer { answer ≡ answer_in world.now (Step.Read node slot) }
    ensures words { OnOk result (string_bytes out.new ≡ string_bytes out.old ++ read_sentence (option_map (λ n. n.now) names.entry) world.now.plan world.now.counts node slot answer) }
{
    // For the proof alone: the call tells that neighbours are nodes.
    let _nodes = world.nodes();
    let neighbour = world.plan().rows().neighbour_of(node, slot);
    match answer {
        Answer::Taken => put_seen(out, world, previous, names, node, neighbour),
        Answer::Behind => put_seen(out, world, previous, names, node, neighbour),
        Answer::Already => put_again(out, names, node, neighbour),
        Answer::Stopped => put_stopped(out, world, names, node, "read"),
        Answer::NoNode => put_no_node(out, world, node),
        Answer::NoSlot => put_no_slot(out, world, names, node, slot),
        Answer::Moved => Ok(()),
        Answer::NotReady => Ok(()),
    }
}

/// The state to which a node has moved.
fn put_moved(
    out: &mut String,
    world: &WorldRef<'_>,
    names: Option<&NodeNames>,
    node: u32,
) -> Result<(), AllocError>
    requires node { node < length world.now.plan.network }
    ensures words { OnOk result (string_bytes out.new ≡ string_bytes out.old ++ write_sentence (option_map (λ n. n.now) names.entry) world.now.plan world.now.counts node Answer.Moved) }
{
    let round = world.moves(node);
    put_called(out, names, node)?;
    out.push_str(" moves:")?;
    put_state(out, world, world.state(node))?;
    write!(out, ", its state of round {round}")?;
    Ok(())
}

/// How many neighbours a node has read that does not move, and the first that it has not.
fn put_waiting(
    out: &mut String,
    world: &WorldRef<'_>,
    names: Option<&NodeNames>,
    node: u32,
) -> Result<(), AllocError>
    ensures words { OnOk result (string_bytes out.new ≡ string_bytes out.old ++ write_sentence (option_map (λ n. n.now) names.entry) world.now.plan world.now.counts node Answer.NotReady) }
{
    let rows = world.plan().rows();
    let read = slots_read(world, node);
    let slots = rows.degree_of(node);
    let unread = rows.neighbour_of(node, first_unread(world, node));
    put_called(out, names, node)?;
    write!(
        out,
        " does not move: it has read {read} of {slots} neighbours, and waits for "
    )?;
    put_called(out, names, unread)?;
    Ok(())
}

/// A write, by its answer, in the world after it.
fn put_write(
    out: &mut String,
    world: &WorldRef<'_>,
    names: Option<&NodeNames>,
    node: u32,
    answer: Answer,
) -> Result<(), AllocError>
    requires node { answer ≡ Answer.Moved → node < length world.now.plan.network }
    ensures words { OnOk result (string_bytes out.new ≡ string_bytes out.old ++ write_sentence (option_map (λ n. n.now) names.entry) world.now.plan world.now.counts node answer) }
{
    match answer {
        Answer::Moved => put_moved(out, world, names, node),
        Answer::NotReady => put_waiting(out, world, names, node),
        Answer::Stopped => put_stopped(out, world, names, node, "move"),
        Answer::NoNode => put_no_node(out, world, node),
        Answer::Taken => Ok(()),
        Answer::Behind => Ok(()),
        Answer::Already => Ok(()),
        Answer::NoSlot => Ok(()),
    }
}

/// A read, which is made behind its sentence.
fn tell_read(
    out: &mut String,
    world: &mut WorldRef<'_>,
    previous: &mut [State],
    names: Option<&NodeNames>,
    node: u32,
    slot: u32,
) -> Result<Answer, AllocError>
    requires previous { HasPrevious world.old previous.old }
    ensures words { OnOk result (string_bytes out.new ≡ string_bytes out.old ++ sentence (option_map (λ n. n.now) names.entry) world.old.plan world.old.stop world.old.counts (Step.Read node slot)) }
    ensures answer { IfOk result (λ answer. answer ≡ answer_in world.old (Step.Read node slot)) }
    ensures after { OnOk result (world.new ≡ world_after world.old (Step.Read node slot)) }
    ensures previous { OnOk result (HasPrevious world.new previous.new) }
{
    let step = Step::Read { node, slot };
    let answer = world.ask(step);
    put_read(out, world, previous, names, node, slot, answer)?;
    Ok(make(world, previous, step))
}

/// A write, which is made before its sentence.
fn tell_write(
    out: &mut String,
    world: &mut WorldRef<'_>,
    previous: &mut [State],
    names: Option<&NodeNames>,
    node: u32,
) -> Result<Answer, AllocError>
    requires previous { HasPrevious world.old previous.old }
    ensures words { OnOk result (string_bytes out.new ≡ string_bytes out.old ++ sentence (option_map (λ n. n.now) names.entry) world.old.plan world.old.stop world.old.counts (Step.Write node)) }
    ensures answer { IfOk result (λ answer. answer ≡ answer_in world.old (Step.Write node)) }
    ensures after { OnOk result (world.new ≡ world_after world.old (Step.Write node)) }
    ensures previous { OnOk result (HasPrevious world.new previous.new) }
{
    let answer = make(world, previous, Step::Write { node });
    put_write(out, world, names, node, answer)?;
    Ok(answer)
}

/// A step, which is made, in a sentence.
pub(crate) fn tell_sentence(
    out: &mut String,
    world: &mut WorldRef<'_>,
    previous: &mut [State],
    names: Option<&NodeNames>,
    step: Step,
) -> Result<Answer, AllocError>
    requires previous { HasPrevious world.old previous.old }
    ensures words { OnOk result (string_bytes out.new ≡ string_bytes out.old ++ sentence (option_map (λ n. n.now) names.entry) world.old.plan world.old.stop world.old.counts step) }
    ensures answer { IfOk result (λ answer. answer ≡ answer_in world.old step) }
    ensures after { OnOk result (world.new ≡ world_after world.old step) }
    ensures previous { OnOk result (HasPrevious world.new previous.new) }
{
    match step {
        Step::Read { node, slot } => tell_read(out, world, previous, names, node, slot),
        Step::Write { node } => tell_write(out, world, previous, names, node),
    }
}
