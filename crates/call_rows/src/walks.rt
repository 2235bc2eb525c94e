//! Long walks of turns and results: at each of many times, every node has the lockstep state of its moves.

use crate::fixtures::draws::below;
use crate::fixtures::{Refusal, read, shared_plan};
use lockstep::{Config, Plan, lockstep};
use std::alloc::Global;
use std::process::Abort;
use std::sync::Arc;
use std::test::Fail;
use unison_world::{Done, World, WriteAnswer};

/// Two fields whose values depend on the numbers, the weights, the round and all neighbours.
const MIX: &str =
    "field s = 1; field t = 9; next s = (((s * 3) + (total (n.s + n.weight) + (id + round))) % 65521); next t = ((t + most n.s) - least n.t);";

/// The stop of the walks.
const STOP: u32 = 80;

/// A fixed list of numbers that looks random.
#[derive(Drop)]
struct Draws {
    seed: u32,
}

impl Draws {
    /// The next number below a limit.
    fn below(&mut self, limit: u32) -> u32 {
        self.seed = self
            .seed
            .wrapping_mul(1_664_525)
            .wrapping_add(1_013_904_223);
        below(self.seed, limit)
    }
}

/// A ring of 30 nodes, where the link from node n to the next weighs n times n; from each third node a chord leads to
/// the seventh after it.
const RING_WITH_CHORDS: &str =
    "nodes = 30\nphase = 1\nlinks = [[0,1,0],[0,7],[1,2,1],[2,3,4],[3,4,9],[3,10],[4,5,16],[5,6,25],[6,7,36],[6,13],[7,8,49],[8,9,64],[9,10,81],[9,16],[10,11,100],[11,12,121],[12,13,144],[12,19],[13,14,169],[14,15,196],[15,16,225],[15,22],[16,17,256],[17,18,289],[18,19,324],[18,25],[19,20,361],[20,21,400],[21,22,441],[21,28],[22,23,484],[23,24,529],[24,25,576],[24,1],[25,26,625],[26,27,676],[27,28,729],[27,4],[28,29,784],[29,0,841],]\n[set]\ns = [[0, 5], [7, 11], [29, 65520]]\n";

/// A world on its way: its plan, the lockstep configurations from round 0 to the stop, and the results that are kept.
#[derive(Drop)]
struct Walk {
    plan: Arc<Plan>,
    rounds: Vec<Config>,
    world: World,
    held: Vec<Done>,
    draws: Draws,
}

/// The lockstep configurations from round 0 to the stop.
fn rounds_of(alloc: Global, plan: &Plan) -> Result<Vec<Config>, Refusal> {
    let mut rounds = Vec::new(alloc);
    for round in 0..=STOP {
        rounds.push(lockstep(alloc, plan, round)?)?;
    }
    Ok(rounds)
}

/// A walk before its first event, with draws from this seed.
fn begun(alloc: Global, seed: u32) -> Result<Walk, Refusal> {
    let plan = shared_plan(alloc, MIX, RING_WITH_CHORDS)?;
    let rounds = rounds_of(alloc, &plan)?;
    let world = World::new(alloc, Arc::try_clone(&plan)?, STOP)?;
    Ok(Walk {
        plan,
        rounds,
        world,
        held: Vec::new(alloc),
        draws: Draws { seed },
    })
}

/// Asserts that no neighbour of a node has moved more than once more often, or more than once less often.
fn assert_near(rt: &impl Abort, world: &World, plan: &Plan, node: u32, moves: u32) {
    for other in plan.network().neighbours(node).unwrap_or(&[]) {
        let others = world.moves(*other).unwrap_or(4_294_967_295);
        assert!(rt;
            moves.abs_diff(others) <= 1,
            "{node} has {moves}, {other} has {others}"
        );
    }
}

/// Asserts that every node has the lockstep state of its moves.
fn assert_in_step(rt: &impl Abort, walk: &Walk) {
    for node in 0..30 {
        let moves = walk.world.moves(node).unwrap_or(4_294_967_295);
        let want = walk
            .rounds
            .get(moves as usize)
            .and_then(|config| config.state(node));
        assert!(rt; want.is_some(), "node {node} after {moves}");
        assert_eq!(rt; walk.world.state(node), want, "node {node} after {moves}");
        assert_near(rt, &walk.world, &walk.plan, node, moves);
    }
}

/// The least number of moves of a node.
fn least_moves(world: &World) -> u32 {
    let mut least = 4_294_967_295;
    for node in 0..30 {
        least = least.min(world.moves(node).unwrap_or(0));
    }
    least
}

/// Lets nodes have their turns.
fn assert_turns(rt: &impl Abort, walk: &mut Walk) {
    for count in 0..5_000u32 {
        let node = walk.draws.below(31);
        let _answer = walk.world.turn(node);
        if count % 100 == 0 {
            assert_in_step(rt, walk);
        }
    }
    assert_in_step(rt, walk);
    assert!(rt; least_moves(&walk.world) >= 20);
}

#[test]
fn walk_of_turns(rt: HostRuntime) -> Result<(), Fail> {
    assert_turns(&rt, &mut begun(rt.alloc(), 2)?);
    Ok(())
}

/// Computes the result of a node that is ready, and keeps it.
fn keep_result(walk: &mut Walk, node: u32) -> Result<(), Refusal> {
    if let Some(work) = walk.world.work(node)? {
        walk.held.push(work.compute())?;
    }
    Ok(())
}

/// Puts the result that was kept so many results ago, where there is one.
fn put_back(rt: &impl Abort, walk: &mut Walk, back: usize) -> Option<WriteAnswer> {
    let at = walk.held.len().checked_sub(back)?;
    let done = walk.held.get(at)?;
    let asked = walk.world.ask_put(done);
    let answer = walk.world.put(done);
    assert_eq!(rt; answer, asked);
    Some(answer)
}

/// Reads, computes a result and keeps it, or puts one of the last twenty kept results.
fn one_event(rt: &impl Abort, walk: &mut Walk) -> Result<Option<WriteAnswer>, Refusal> {
    let node = walk.draws.below(31);
    match walk.draws.below(8) {
        0 => keep_result(walk, node)?,
        1 => {
            let back = walk.draws.below(20) as usize + 1;
            return Ok(put_back(rt, walk, back));
        }
        slot => {
            let _answer = walk.world.step(read(node, slot - 2));
        }
    }
    Ok(None)
}

/// Lets results come back late; some of them are stale.
fn assert_results(rt: &impl Abort, walk: &mut Walk) -> Result<(), Refusal> {
    let mut stale = false;
    for count in 0..40_000u32 {
        let answer = one_event(rt, walk)?;
        stale = stale || answer == Some(WriteAnswer::Stale);
        if count % 100 == 0 {
            assert_in_step(rt, walk);
        }
    }
    assert_in_step(rt, walk);
    assert!(rt; stale && least_moves(&walk.world) >= 20);
    Ok(())
}

#[test]
fn walk_of_results(rt: HostRuntime) -> Result<(), Fail> {
    assert_results(&rt, &mut begun(rt.alloc(), 3)?)?;
    Ok(())
}
