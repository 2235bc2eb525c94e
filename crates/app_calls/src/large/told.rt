//! What is told of each of a list of rounds of a program on the lists of a network.
ghost use Rattle.std.specs.Prelude.{◌≡◌, ◌+◌, ◌-◌, ◌*◌, ◌++◌, ◌≤◌, ◌<◌, ◌^◌, length, IfOk, OnOk, MatchResult, Ok, Some, None};
ghost use Rattle.rounds_plan.specs.Configs.{most_rounds};
ghost use Rattle.rounds_plan.specs.Lockstep.{lockstep_config};
ghost use Rattle.rounds_plan.specs.Starts.{start_of};
ghost use Rattle.app_calls.specs.Refusals.{word_count};
ghost use Rattle.app_calls.specs.Words.{entry_fault, list_fault};
ghost use Rattle.app_calls.specs.Lists.{AreRows, rows_in};
ghost use Rattle.app_calls.specs.LargeAnswers.{given_plan, words_plan};
ghost use Rattle.app_calls.specs.Tellings.{told_at, told_count, told_of};
ghost use Rattle.app_calls.specs.WatchAnswers.{plan_from};

use crate::Fault;
use crate::large::rounds::{check_span, plan_on};
use crate::large::rows::{ones_of, rows_with};
use crate::large::start::ReadStart;
use crate::large::states::states_of;
use crate::large::telling::{Telling, add_told};
use link_net::NetRows;
use rounds_walk::{RoundWalk, Start};
use rule_check::{Program, State};
use std::alloc::{AllocError, Global};

/// The least round that may follow one of a list that may not lie below `least`.
fn next_least(start: u32, least: u32, round: u32) -> Result<u32, Fault>
    ensures there { MatchResult result (λ next. (entry_fault (plan_from start) least round ≡ None) × (next ≡ round + 1)) (λ f. entry_fault (plan_from start) least round ≡ Some f) }
{
    check_span(start, round)?;
    if round < least {
        return Err(Fault::NotRising);
    }
    Ok(round + 1)
}

/// Why a plan with this start does not have a list of rounds, or the list does not rise, if so.
pub(crate) fn check_rounds(start: u32, rounds: &[u32]) -> Result<(), Fault>
    ensures there { MatchResult result (λ _. list_fault (plan_from start) start rounds.now ≡ None) (λ f. list_fault (plan_from start) start rounds.now ≡ Some f) }
{
    let mut least = start;
    for round in rounds {
        least = next_least(start, least, *round)?;
    }
    Ok(())
}

/// Goes on to a round, and appends what is told of it.
fn add_round(
    alloc: Global,
    words: &mut Vec<u32>,
    walk: &mut RoundWalk<'_>,
    round: u32,
    fields: usize,
    telling: Telling<'_>,
) -> Result<(), AllocError>
    requires late { walk.old.round ≤ round }
    requires fields { fields ≡ length walk.old.plan.program.fields }
    requires few { fields ≤ 8 }
    requires nodes { length walk.old.plan.network < 2 ^ 32 }
    ensures added { OnOk result (words.new.items ≡ words.old.items ++ told_of telling.entry (lockstep_config walk.old.plan round)) }
    ensures count { OnOk result (length (told_of telling.entry (lockstep_config walk.old.plan round)) ≡ told_count telling.entry (word_count walk.old.plan)) }
    ensures there { OnOk result (walk.new ≡ record { plan = walk.old.plan; round = round }) }
{
    walk.go_to(round);
    let states = walk.states(alloc)?;
    add_told(alloc, words, &states, fields, telling)?;
    Ok(())
}

/// Of which rounds what is told, and how many numbers that are.
#[derive(Clone, Copy)]
pub(crate) struct Asked<'a> {
    pub(crate) rounds: &'a [u32],
    pub(crate) telling: Telling<'a>,
    pub(crate) room: usize,
}

/// What is told of each of the rounds of a plan, in one pass over them, with memory for so many numbers from the beginning.
fn plan_told<'a>(
    alloc: Global,
    plan: &'a Start<'a>,
    asked: &Asked<'_>,
) -> Result<Vec<u32>, AllocError>
    requires there { list_fault plan.now plan.now.start asked.now.rounds.now ≡ None }
    ensures words { IfOk result (λ v. v.items ≡ told_at asked.now.telling plan.now asked.now.rounds.now) }
    ensures count { IfOk result (λ v. length v.items ≡ length asked.now.rounds.now * told_count asked.now.telling (word_count plan.now)) }
{
    let fields = plan.program().field_count() as usize;
    // For the proof: that there are not too many.
    let _nodes = plan.nodes();
    let mut walk = plan.walk(alloc)?;
    let mut words = Vec::with_capacity(alloc, asked.room)?;
    for round in asked.rounds {
        add_round(alloc, &mut words, &mut walk, *round, fields, asked.telling)?;
    }
    Ok(words)
}

/// What is told of each of the rounds of the plan of a program on rows whose nodes have these states at the start.
fn told_from(
    alloc: Global,
    program: &Program,
    rows: NetRows<'_>,
    opening: &[State],
    start: u32,
    asked: &Asked<'_>,
) -> Result<Vec<u32>, AllocError>
    requires plan { start_of program.now rows opening.now start ≡ Ok (given_plan program.now rows opening.now start) }
    requires there { list_fault (plan_from start) start asked.now.rounds.now ≡ None }
    ensures words { IfOk result (λ v. v.items ≡ told_at asked.now.telling (given_plan program.now rows.entry opening.now start) asked.now.rounds.now) }
    ensures count { IfOk result (λ v. length v.items ≡ length asked.now.rounds.now * told_count asked.now.telling (length rows.entry * length program.now.fields)) }
{
    let plan = plan_on(alloc, program, rows, opening, start)?;
    let words = plan_told(alloc, &plan, asked)?;
    Ok(words)
}

/// What is told of each of the rounds, from the words of all nodes of rows at the start.
fn told_on_rows(
    alloc: Global,
    program: &Program,
    rows: NetRows<'_>,
    start: u32,
    from: &[u32],
    asked: &Asked<'_>,
) -> Result<Vec<u32>, AllocError>
    requires some { 1 ≤ length rows }
    requires count { length from.now ≡ length rows * length program.now.fields }
    requires early { start ≤ most_rounds }
    requires there { list_fault (plan_from start) start asked.now.rounds.now ≡ None }
    ensures words { IfOk result (λ v. v.items ≡ told_at asked.now.telling (words_plan program.now rows.entry from.now start) asked.now.rounds.now) }
    ensures count { IfOk result (λ v. length v.items ≡ length asked.now.rounds.now * told_count asked.now.telling (length from.now)) }
{
    let fields = program.field_count() as usize;
    let nodes = rows.nodes() as usize;
    let opening = states_of(alloc, from, fields, nodes)?;
    let words = told_from(alloc, program, rows, &opening, start, asked)?;
    Ok(words)
}

/// What is told of each of the rounds, of which there is one or more, on the lists of a network.
fn told_on_lists(
    alloc: Global,
    origin: &ReadStart<'_>,
    from: &[u32],
    asked: &Asked<'_>,
) -> Result<Vec<u32>, AllocError>
    requires rows { AreRows origin.now.lists }
    requires count { length from.now ≡ (length origin.now.lists.offsets.now - 1) * length origin.now.program.now.fields }
    requires early { origin.now.start ≤ most_rounds }
    requires there { list_fault (plan_from origin.now.start) origin.now.start asked.now.rounds.now ≡ None }
    ensures words { IfOk result (λ v. v.items ≡ told_at asked.now.telling (words_plan origin.now.program.now (rows_in origin.now.lists) from.now origin.now.start) asked.now.rounds.now) }
    ensures count { IfOk result (λ v. length v.items ≡ length asked.now.rounds.now * told_count asked.now.telling (length from.now)) }
{
    let ones = ones_of(alloc, &origin.lists)?;
    let rows = rows_with(&origin.lists, &ones);
    told_on_rows(alloc, origin.program, rows, origin.start, from, asked)
}

/// What is told of each of the rounds on the lists of a network, one round after the other; of no rounds nothing, and then no
/// plan is made.
pub(crate) fn told_of_each(
    alloc: Global,
    origin: &ReadStart<'_>,
    from: &[u32],
    asked: &Asked<'_>,
) -> Result<Vec<u32>, AllocError>
    requires rows { AreRows origin.now.lists }
    requires count { length from.now ≡ (length origin.now.lists.offsets.now - 1) * length origin.now.program.now.fields }
    requires there { list_fault (plan_from origin.now.start) origin.now.start asked.now.rounds.now ≡ None }
    ensures words { IfOk result (λ v. v.items ≡ told_at asked.now.telling (words_plan origin.now.program.now (rows_in origin.now.lists) from.now origin.now.start) asked.now.rounds.now) }
    ensures count { IfOk result (λ v. length v.items ≡ length asked.now.rounds.now * told_count asked.now.telling (length from.now)) }
{
    if asked.rounds.is_empty() {
        return Ok(Vec::new(alloc));
    }
    told_on_lists(alloc, origin, from, asked)
}
