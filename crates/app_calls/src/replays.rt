//! What a replay tells: its report, and for each node its count and its words.
ghost use Rattle.std.specs.Prelude.{◌≡◌, ◌≢◌, ℕ, ◌<◌, ◌++◌, ◌∷◌, [], length, IfOk, IfErr, OnErr, OnOk};
ghost use Rattle.std.specs.Arc.{arc_value};
ghost use Rattle.unison_world.specs.Counting.{moves_of};
ghost use Rattle.unison_trace.specs.Replays.{replay_text};
ghost use Rattle.unison_trace.specs.ReplayFaults.{IsRefusedText};
ghost use Rattle.app_calls.specs.declared.fault.Fault.TheVariants as fault;
ghost use Rattle.app_calls.specs.Answers.{ArePutIn, HasPlanOf, HasReplay, HasShape, IsToldOf, Replayed, TellsReplay, told_by};
ghost use Rattle.app_calls.specs.Refusals.{AreTooSmall, HasNoPlanOf, IsNoReplay};
ghost use Rattle.app_calls.specs.Words.{counts_in, shown_words, words_after};

use crate::fault::Fault;
use crate::plans::{PlanTexts, plan_of};
use crate::words::{add_words, put_bytes, put_words};
use rounds_plan::Plan;
use std::alloc::{AllocError, Global};
use std::sync::Arc;
use unison_trace::{ReplayFault, make_steps, read_schedule, replay_report};
use unison_world::World;

/// What is replayed: the texts of a plan, that of a schedule, and the round in which each node stops.
#[derive(Clone, Copy)]
pub struct ReplayTexts<'a> {
    pub plan: PlanTexts<'a>,
    pub schedule: &'a [u8],
    pub stop: u32,
}

/// How much a replay tells.
#[derive(Clone, Copy)]
pub struct ReplaySizes {
    /// How many bytes the replay report has.
    pub report: usize,
    /// How many nodes there are.
    pub nodes: u32,
    /// How many fields the program has.
    pub fields: u32,
}

/// What a replay tells.
#[derive(Drop)]
struct Told {
    report: Vec<u8>,
    counts: Vec<u32>,
    words: Vec<u32>,
    nodes: u32,
    fields: u32,
}

/// Appends how often a node has moved.
fn add_count(counts: &mut Vec<u32>, world: &World, node: u32) -> Result<(), AllocError>
    requires node { node < length world.now.plan.network }
    ensures added { OnOk result (counts.new.items ≡ counts.old.items ++ moves_of world.now.counts node ∷ []) }
{
    counts.push(world.moves(node).unwrap())?;
    Ok(())
}

/// How often each node has moved, node by node.
fn counts_of(alloc: Global, world: &World) -> Result<Vec<u32>, AllocError>
    ensures counts { IfOk result (λ v. v.items ≡ counts_in world.now.plan world.now.counts) }
{
    let mut counts = Vec::new(alloc);
    for node in 0..world.nodes() {
        add_count(&mut counts, world, node)?;
    }
    Ok(counts)
}

/// Appends the words that a node shows.
fn add_shown(words: &mut Vec<u32>, world: &World, node: u32) -> Result<(), AllocError>
    requires node { node < length world.now.plan.network }
    ensures added { OnOk result (words.new.items ≡ words.old.items ++ shown_words world.now.plan world.now.counts node) }
{
    let state = world.state(node).unwrap();
    // For the proof: what holds of every plan.
    let _phase = world.plan().phase();
    add_words(words, &state, world.plan().program().field_count() as usize)
}

/// The words that the nodes show, node by node.
fn words_of(alloc: Global, world: &World) -> Result<Vec<u32>, AllocError>
    ensures words { IfOk result (λ v. v.items ≡ words_after world.now.plan world.now.counts) }
{
    let mut words = Vec::new(alloc);
    for node in 0..world.nodes() {
        add_shown(&mut words, world, node)?;
    }
    Ok(words)
}

/// What there is to tell of a world.
fn told_of(alloc: Global, world: &World) -> Result<Told, AllocError>
    ensures report { IfOk result (λ t. t.report.items ≡ replay_text world.now.plan world.now.counts) }
    ensures counts { IfOk result (λ t. t.counts.items ≡ counts_in world.now.plan world.now.counts) }
    ensures words { IfOk result (λ t. t.words.items ≡ words_after world.now.plan world.now.counts) }
    ensures shape { IfOk result (λ t. HasShape world.now.plan t.nodes t.fields) }
{
    let report = replay_report(alloc, world.plan(), world)?;
    let counts = counts_of(alloc, world)?;
    let words = words_of(alloc, world)?;
    Ok(Told {
        report,
        counts,
        words,
        nodes: world.nodes(),
        fields: world.plan().program().field_count(),
    })
}

/// What the replay of a schedule's text on a plan tells.
fn replay_on(
    alloc: Global,
    plan: Arc<Plan>,
    stop: u32,
    schedule: &[u8],
) -> Result<Told, ReplayFault>
    ensures told { IfOk result (λ t. IsToldOf (arc_value plan) stop schedule.now (told_by t.report.items t.counts.items t.words.items)) }
    ensures shape { IfOk result (λ t. HasShape (arc_value plan) t.nodes t.fields) }
    ensures refused { IfErr result (IsRefusedText (arc_value plan) stop schedule.now) }
{
    let steps = read_schedule(alloc, schedule)?;
    let mut world = World::new(alloc, plan, stop)?;
    make_steps(&mut world, &steps);
    Ok(told_of(alloc, &world)?)
}

/// Writes the sizes of what is told, and puts it in front where there is room for all of it.
fn put_told(
    told: &Told,
    report: &mut [u8],
    counts: &mut [u32],
    words: &mut [u32],
    sizes: &mut ReplaySizes,
) -> Result<(), Fault>
    ensures put { OnOk result (ArePutIn (told_by report.old counts.old words.old) (told_by report.new counts.new words.new) (told_by told.now.report.items told.now.counts.items told.now.words.items)) }
    ensures sizes { (sizes.new.report ≡ length told.now.report.items) × (sizes.new.nodes ≡ told.now.nodes) × (sizes.new.fields ≡ told.now.fields) }
    ensures kept { OnErr result ((report.new ≡ report.old) × (counts.new ≡ counts.old) × (words.new ≡ words.old)) }
    ensures refused { IfErr result (λ f. (f ≡ fault.Room) × AreTooSmall (told_by report.old counts.old words.old) (told_by told.now.report.items told.now.counts.items told.now.words.items)) }
{
    *sizes = ReplaySizes {
        report: told.report.len(),
        nodes: told.nodes,
        fields: told.fields,
    };
    if report.len() < told.report.len() {
        return Err(Fault::Room);
    }
    if counts.len() < told.counts.len() {
        return Err(Fault::Room);
    }
    if words.len() < told.words.len() {
        return Err(Fault::Room);
    }
    put_bytes(&told.report, report);
    put_words(&told.counts, counts);
    put_words(&told.words, words);
    Ok(())
}

/// What the replay tells.
fn replay_of_texts(alloc: Global, replay: &ReplayTexts<'_>) -> Result<Told, Fault>
    ensures told { IfOk result (λ t. HasPlanOf replay.now.plan (λ p. TellsReplay p replay.now.stop replay.now.schedule.now (told_by t.report.items t.counts.items t.words.items) t.nodes t.fields)) }
    ensures refused { IfErr result (λ f. (f ≢ fault.Room) × ((old : Replayed) (len nodes fields : ℕ) → HasNoPlanOf replay.now.plan (IsNoReplay replay.now.stop replay.now.schedule.now old len nodes fields) f)) }
{
    let plan = plan_of(alloc, &replay.plan)?;
    let plan = Arc::new(alloc, plan)?;
    Ok(replay_on(alloc, plan, replay.stop, replay.schedule)?)
}

/// Writes what the replay tells to the front of the caller's three memories, and how much that is; where one of them is too
/// small, how much it is alone.
pub fn write_replay(
    alloc: Global,
    replay: &ReplayTexts<'_>,
    report: &mut [u8],
    counts: &mut [u32],
    words: &mut [u32],
    sizes: &mut ReplaySizes,
) -> Result<(), Fault>
    ensures written { OnOk result (HasPlanOf replay.now.plan (λ p. HasReplay p replay.now.stop replay.now.schedule.now (told_by report.old counts.old words.old) (told_by report.new counts.new words.new) sizes.new.report sizes.new.nodes sizes.new.fields)) }
    ensures kept { OnErr result ((report.new ≡ report.old) × (counts.new ≡ counts.old) × (words.new ≡ words.old)) }
    ensures sized { IfErr result (λ f. f ≢ fault.Room → sizes.new ≡ sizes.old) }
    ensures refused { IfErr result (HasNoPlanOf replay.now.plan (IsNoReplay replay.now.stop replay.now.schedule.now (told_by report.old counts.old words.old) sizes.new.report sizes.new.nodes sizes.new.fields)) }
{
    let told = replay_of_texts(alloc, replay)?;
    put_told(&told, report, counts, words, sizes)
}
