//! The states after a round.
ghost use Rattle.std.specs.Prelude.{◌≡◌, ◌≢◌, ◌≤◌, IfOk, IfErr, OnOk, Ok, Err, length};
ghost use Rattle.rounds_plan.specs.Configs.{most_rounds};
ghost use Rattle.rounds_plan.specs.Lockstep.{rounds_of, lockstep_states};
ghost use Rattle.rounds_plan.specs.Plans.{PlanView};

use crate::start::Start;
use rounds_blocks::PackedStates;
use rounds_plan::{MOST_ROUNDS, RoundFault};
use rule_check::State;
use std::alloc::{AllocError, Global};
use std::thread::Threads;

/// Why no plan with this start has such a round, if it has none.
pub fn check_round(start: u32, rounds: u32) -> Result<(), RoundFault>
    ensures there { OnOk result ((start ≤ rounds) × (rounds ≤ most_rounds)) }
    ensures refused { IfErr result (λ fault. (p : PlanView) → p.start ≡ start → rounds_of p rounds ≡ Err fault) }
{
    if rounds > MOST_ROUNDS {
        return Err(RoundFault::TooManyRounds);
    }
    if rounds < start {
        return Err(RoundFault::RoundsBelowStart);
    }
    Ok(())
}

/// The states after a round, made sequentially.
fn made_in_turn<'a>(
    alloc: Global,
    start: &'a Start<'a>,
    rounds: u32,
) -> Result<PackedStates, AllocError>
    requires late { start.now.start ≤ rounds }
    ensures exact { IfOk result (λ packed. packed ≡ lockstep_states start.now rounds (length start.now.network)) }
{
    let mut walk = start.walk(alloc)?;
    walk.go_to(rounds);
    Ok(walk.into_packed())
}

/// The states after a round, each round shared among so many threads.
fn made_in_threads<'a>(
    rt: &(impl Threads + Sync),
    alloc: Global,
    start: &'a Start<'a>,
    rounds: u32,
    threads: usize,
) -> Result<PackedStates, AllocError>
    requires late { start.now.start ≤ rounds }
    ensures exact { IfOk result (λ packed. packed ≡ lockstep_states start.now rounds (length start.now.network)) }
{
    let mut walk = start.shared_walk(alloc, threads)?;
    walk.go_to_shared(rt, rounds);
    Ok(walk.into_packed())
}

/// What `lockstep_states` answers, the states packed: they borrow nothing of the start, which can be dropped before a list
/// of them is made. The refusals are the same, and come before anything is done.
pub fn packed_lockstep<'a>(
    rt: &(impl Threads + Sync),
    alloc: Global,
    start: &'a Start<'a>,
    rounds: u32,
    threads: usize,
) -> Result<PackedStates, RoundFault>
    ensures exact { IfOk result (λ packed. rounds_of start.now rounds ≡ Ok (record { rounds = rounds; fields = length start.now.program.fields; states = packed })) }
    ensures refused { IfErr result (λ fault. fault ≢ RoundFault.Memory → rounds_of start.now rounds ≡ Err fault) }
    ensures at_once { IfErr (rounds_of start.now rounds) (λ fault. result ≡ Err fault) }
{
    check_round(start.start(), rounds)?;
    let packed = if threads > 1 {
        made_in_threads(rt, alloc, start, rounds, threads)?
    } else {
        made_in_turn(alloc, start, rounds)?
    };
    Ok(packed)
}

/// The states of all nodes after a round, counted from round 0, by the textbook synchronous round: from the initial
/// states on all nodes move at once, each by its own state and its neighbours' states before. Where the program doesn't
/// read the number of the round, none is computed after the first one that changes nothing.
///
/// Each round that has enough to compute is shared among so many threads, and is made sequentially where they are fewer
/// than two; the states are the same. A start made by `Start::to_share` is laid out for threads.
///
/// `TooManyRounds` comes above 1,000,000,000, and else `RoundsBelowStart` below the round of the initial states, both
/// before anything is done.
pub fn lockstep_states<'a>(
    rt: &(impl Threads + Sync),
    alloc: Global,
    start: &'a Start<'a>,
    rounds: u32,
    threads: usize,
) -> Result<Vec<State>, RoundFault>
    ensures exact { IfOk result (λ states. rounds_of start.now rounds ≡ Ok (record { rounds = rounds; fields = length start.now.program.fields; states = states.items })) }
    ensures refused { IfErr result (λ fault. fault ≢ RoundFault.Memory → rounds_of start.now rounds ≡ Err fault) }
    ensures at_once { IfErr (rounds_of start.now rounds) (λ fault. result ≡ Err fault) }
{
    let packed = packed_lockstep(rt, alloc, start, rounds, threads)?;
    let states = packed.states(alloc)?;
    Ok(states)
}
