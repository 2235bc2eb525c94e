//! Single steps, and what is seen of the nodes after them.
ghost use Rattle.std.specs.Prelude.{◌≡◌, ◌≢◌, ◌<◌, Err, IfErr, IfOk, OnOk, length, map};
ghost use Rattle.std.specs.Arc.{arc_value};
ghost use Rattle.link_net.specs.Neighbours.{numbers_below};
ghost use Rattle.unison_world.specs.Counting.{InStep, answers, run};
ghost use Rattle.unison_world.specs.Opening.{opening_of};
ghost use Rattle.unison_world.specs.View.{with_counts};
ghost use Rattle.headline.specs.Headline.{IsUnison};
ghost use Rattle.headline.specs.Showing.{shown_in};

use phase_register::Phase;
use rounds_plan::Plan;
use rule_check::State;
use std::alloc::{AllocError, Global};
use std::sync::Arc;
use unison_world::{Answer, OpenFault, Step, World};

/// What a node shows.
#[derive(Clone, Copy, Debug, PartialEq, Eq)]
pub struct Shown {
    /// How often it has moved, the rounds before the plan's start included.
    pub moves: u32,
    /// The phase in its register.
    pub phase: Phase,
    /// The state in its register.
    pub state: State,
}

/// What is seen of steps, and of the nodes after them.
#[derive(Debug, Drop)]
pub struct Seen {
    /// The answer to each step, in order.
    pub answers: Vec<Answer>,
    /// What each node shows, by rising number.
    pub nodes: Vec<Shown>,
}

/// Makes the steps, in order. The answer to each.
fn answers_to(alloc: Global, world: &mut World, steps: &[Step]) -> Result<Vec<Answer>, AllocError>
    ensures answers { IfOk result (λ v. v.items ≡ answers world.old.plan.network world.old.stop world.old.counts steps.now) }
    ensures made { OnOk result (world.new ≡ with_counts world.old (run world.old.plan.network world.old.stop world.old.counts steps.now)) }
{
    let mut answers = Vec::new(alloc);
    for step in steps {
        answers.push(world.step(*step))?;
    }
    Ok(answers)
}

/// What a node of a world shows.
fn shown_at(world: &World, node: u32) -> Shown
    requires node { node < length world.now.plan.network }
    ensures shown { result ≡ shown_in world.now node }
{
    match (world.moves(node), world.phase(node), world.state(node)) {
        (Some(moves), Some(phase), Some(state)) => Shown {
            moves,
            phase,
            state,
        },
        _ => unreachable!(),
    }
}

/// What each node of a world shows, by rising number.
fn nodes_of(alloc: Global, world: &World) -> Result<Vec<Shown>, AllocError>
    ensures nodes { IfOk result (λ v. v.items ≡ map (shown_in world.now) (numbers_below (length world.now.plan.network))) }
    ensures in_step { InStep world.now.plan.network world.now.stop world.now.counts }
{
    let mut nodes = Vec::new(alloc);
    for node in 0..world.nodes() {
        nodes.push(shown_at(world, node))?;
    }
    Ok(nodes)
}

/// What is seen when the nodes of a plan make any single steps, in order: a node reads the register of one neighbour, or
/// writes its own. All nodes begin at the plan's start, with equal phases, and move up to the stop.
///
/// `StopTooLarge` comes for a stop above 1,000,000,000, and else `StopBelowStart` for one below the plan's start; `Memory`
/// only where neither does.
pub fn after_steps(
    alloc: Global,
    plan: Arc<Plan>,
    stop: u32,
    steps: &[Step],
) -> Result<Seen, OpenFault>
    ensures unison { IfOk result (IsUnison (arc_value plan) stop steps.now) }
    ensures refused { IfErr result (λ fault. fault ≢ OpenFault.Memory → opening_of (arc_value plan) stop ≡ Err fault) }
{
    let mut world = World::new(alloc, plan, stop)?;
    let answers = answers_to(alloc, &mut world, steps)?;
    let nodes = nodes_of(alloc, &world)?;
    Ok(Seen { answers, nodes })
}
