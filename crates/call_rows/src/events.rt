//! What happens to worlds, and what they answer.

use crate::fixtures::{first_stray, read, world_of, write};
use phase_register::Phase;
use std::alloc::Global;
use std::process::Abort;
use std::test::Fail;
use unison_world::{Answer, Done, Step, TurnAnswer, World, WriteAnswer};

/// What happens to a world, and the answer that is wanted.
#[derive(Clone, Copy)]
pub(crate) enum Event {
    /// A node reads the neighbour at one of its slots.
    Read(u32, u32, Answer),
    /// A node writes its register.
    Write(u32, Answer),
    /// A node has its turn.
    Turn(u32, TurnAnswer),
    /// A sweep, in which so many nodes move.
    Sweep(u32),
    /// Sweeps to the stop, in so many reads and moves.
    Sweeps(u64),
    /// The next state of a node that is ready is computed and kept.
    Compute(u32),
    /// There is nothing to compute for a node.
    NoWork(u32),
    /// The result that was kept last is put.
    Put(WriteAnswer),
    /// The nodes stand there: how often each has moved, and the first word of its state.
    Nodes(&'static [(u32, u32)]),
    /// Nodes 0 and 1 show a phase of this number.
    Phases(u8),
}

/// A world before any step, and what happens to it: the texts of its program and its network, and its stop.
#[derive(Clone, Copy)]
pub(crate) struct Scene {
    pub(crate) program: &'static str,
    pub(crate) network: &'static str,
    pub(crate) stop: u32,
    pub(crate) events: &'static [Event],
}

/// Asserts where the nodes of a world stand.
pub(crate) fn assert_nodes(rt: &impl Abort, world: &World, wanted: &[(u32, u32)]) {
    assert_eq!(rt; first_stray(world, wanted), None, "{wanted:?}");
}

/// Asserts what a world answers to a step, asked and made.
pub(crate) fn assert_step(rt: &impl Abort, world: &mut World, step: Step, want: Answer) {
    assert_eq!(rt; world.ask(step), want, "asked {step:?}");
    assert_eq!(rt; world.step(step), want, "{step:?}");
}

/// Asserts what a world answers to the result that was kept last, asked and put.
fn assert_put(
    rt: &impl Abort,
    world: &mut World,
    held: &[Done],
    want: WriteAnswer,
) -> Result<(), Fail> {
    let done = held.last().ok_or("no result is kept")?;
    assert_eq!(rt; world.ask_put(done), want, "asked");
    assert_eq!(rt; world.put(done), want);
    Ok(())
}

/// Asserts that nodes 0 and 1 show a phase of this number.
fn assert_phases(rt: &impl Abort, world: &World, number: u8) {
    assert_eq!(rt; world.phase(0), Phase::from_number(number));
    assert_eq!(rt; world.phase(1), Phase::from_number(number));
}

/// Computes the next state of a node that is ready, and keeps it.
fn keep_done(world: &World, held: &mut Vec<Done>, node: u32) -> Result<(), Fail> {
    let work = world.work(node)?.ok_or("the node is not ready")?;
    held.push(work.compute())?;
    Ok(())
}

/// Asserts that there is nothing to compute for a node.
fn assert_no_work(rt: &impl Abort, world: &World, node: u32) -> Result<(), Fail> {
    let work = world.work(node)?;
    assert!(rt; work.is_none(), "work of {node}");
    Ok(())
}

/// Lets one thing happen, and asserts the answer.
fn assert_event(
    rt: &impl Abort,
    world: &mut World,
    held: &mut Vec<Done>,
    event: &Event,
) -> Result<(), Fail> {
    match event {
        Event::Read(node, slot, want) => assert_step(rt, world, read(*node, *slot), *want),
        Event::Write(node, want) => assert_step(rt, world, write(*node), *want),
        Event::Turn(node, want) => assert_eq!(rt; world.turn(*node), *want, "turn of {node}"),
        Event::Sweep(moved) => assert_eq!(rt; world.sweep(), *moved),
        Event::Sweeps(steps) => assert_eq!(rt; world.run_sweeps(), *steps),
        Event::Compute(node) => keep_done(world, held, *node)?,
        Event::NoWork(node) => assert_no_work(rt, world, *node)?,
        Event::Put(want) => assert_put(rt, world, held, *want)?,
        Event::Nodes(wanted) => assert_nodes(rt, world, wanted),
        Event::Phases(number) => assert_phases(rt, world, *number),
    }
    Ok(())
}

/// Lets all this happen to a world, and asserts the answers.
pub(crate) fn assert_events(
    rt: &impl Abort,
    world: &mut World,
    held: &mut Vec<Done>,
    events: &[Event],
) -> Result<(), Fail> {
    for event in events {
        assert_event(rt, world, held, event)?;
    }
    Ok(())
}

/// The world of a scene after all that happens to it, with the answers asserted.
pub(crate) fn played(
    rt: &impl Abort,
    alloc: Global,
    held: &mut Vec<Done>,
    scene: &Scene,
) -> Result<World, Fail> {
    let mut world = world_of(alloc, scene.program, scene.network, scene.stop)?;
    assert_events(rt, &mut world, held, scene.events)?;
    Ok(world)
}

/// Asserts the answers of each scene, with a world and results of its own.
pub(crate) fn assert_scenes(rt: &impl Abort, alloc: Global, scenes: &[Scene]) -> Result<(), Fail> {
    for scene in scenes {
        let mut held = Vec::new(alloc);
        let _world = played(rt, alloc, &mut held, scene)?;
    }
    Ok(())
}
