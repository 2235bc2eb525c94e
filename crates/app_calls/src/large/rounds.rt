//! The words after a round of a program on the lists of a network.
ghost use Rattle.std.specs.Prelude.{◌≡◌, ◌≢◌, ◌-◌, ◌*◌, ◌≤◌, length, IfOk, IfErr, OnErr, OnOk, Ok, Err};
ghost use Rattle.rounds_plan.specs.Configs.{most_rounds};
ghost use Rattle.rounds_plan.specs.Lockstep.{lockstep_states, rounds_of};
ghost use Rattle.rounds_plan.specs.Plans.{PlanView};
ghost use Rattle.rounds_plan.specs.Starts.{start_of};
ghost use Rattle.app_calls.specs.declared.fault.Fault.TheVariants as call;
ghost use Rattle.app_calls.specs.declared.large.fault.LargeCallFault.TheVariants as fault;
ghost use Rattle.app_calls.specs.Lists.{AreRows, rows_in};
ghost use Rattle.app_calls.specs.LargeAnswers.{AreMoved, HasLargeRounds, HasSpan, IsLongLarge, IsNoMove, IsNoSpan, IsRefusedRounds, given_plan};

use crate::Fault;
use crate::large::fault::LargeCallFault;
use crate::large::lists::check_lists;
use crate::large::rows::{ones_of, rows_with};
use crate::large::start::{ListsStart, ReadStart};
use crate::large::states::{put_states, states_of};
use app_jobs::program_of;
use link_net::NetRows;
use rounds_walk::{MOST_ROUNDS, PlanRef, RoundFault, Start};
use rule_check::{Program, State};
use std::alloc::{AllocError, Global};

/// Refuses a round that no plan with this start has.
pub(crate) fn check_span(start: u32, round: u32) -> Result<(), RoundFault>
    ensures within { OnOk result ((start ≤ round) × (round ≤ most_rounds)) }
    ensures there { OnOk result (HasSpan start round) }
    ensures refused { IfErr result (IsNoSpan start round) }
{
    if round > MOST_ROUNDS {
        return Err(RoundFault::TooManyRounds);
    }
    if round < start {
        return Err(RoundFault::RoundsBelowStart);
    }
    Ok(())
}

/// The plan of a program on rows whose nodes have these states at the start.
pub(crate) fn plan_on<'a>(
    alloc: Global,
    program: &'a Program,
    rows: NetRows<'a>,
    opening: &'a [State],
    start: u32,
) -> Result<Start<'a>, AllocError>
    requires plan { start_of program.now rows opening.now start ≡ Ok (given_plan program.now rows opening.now start) }
    ensures plan { IfOk result (λ plan. plan ≡ given_plan program.now rows.entry opening.now start) }
{
    match PlanRef::new(program, rows, opening, start) {
        Ok(plan) => Start::new(alloc, &plan),
        Err(_) => unreachable!(),
    }
}

/// The states after a round of the plan of a program on rows, made sequentially.
fn states_after(
    alloc: Global,
    program: &Program,
    rows: NetRows<'_>,
    opening: &[State],
    start: u32,
    round: u32,
) -> Result<Vec<State>, AllocError>
    requires plan { start_of program.now rows opening.now start ≡ Ok (given_plan program.now rows opening.now start) }
    requires late { start ≤ round }
    ensures states { IfOk result (λ v. v.items ≡ lockstep_states (given_plan program.now rows.entry opening.now start) round (length rows.entry)) }
{
    let plan = plan_on(alloc, program, rows, opening, start)?;
    let mut walk = plan.walk(alloc)?;
    walk.go_to(round);
    let states = walk.states(alloc)?;
    Ok(states)
}

/// Moves all nodes of rows from the round of their words on to a later one.
fn move_on(
    alloc: Global,
    program: &Program,
    rows: NetRows<'_>,
    start: u32,
    round: u32,
    words: &mut [u32],
) -> Result<(), AllocError>
    requires some { 1 ≤ length rows }
    requires count { length words.old ≡ length rows * length program.now.fields }
    requires late { start ≤ round }
    requires there { round ≤ most_rounds }
    ensures moved { OnOk result (AreMoved program.now rows.entry start round words.old words.new) }
    ensures kept { OnErr result (words.new ≡ words.old) }
{
    let fields = program.field_count() as usize;
    let nodes = rows.nodes() as usize;
    let opening = states_of(alloc, words, fields, nodes)?;
    let states = states_after(alloc, program, rows, &opening, start, round)?;
    put_states(&states, fields, words);
    Ok(())
}

/// Moves all nodes on, each weight being 1 where there are none.
fn move_on_lists(
    alloc: Global,
    origin: &ReadStart<'_>,
    round: u32,
    words: &mut [u32],
) -> Result<(), AllocError>
    requires rows { AreRows origin.now.lists }
    requires count { length words.old ≡ (length origin.now.lists.offsets.now - 1) * length origin.now.program.now.fields }
    requires late { origin.now.start ≤ round }
    requires there { round ≤ most_rounds }
    ensures moved { OnOk result (AreMoved origin.now.program.now (rows_in origin.now.lists) origin.now.start round words.old words.new) }
    ensures kept { OnErr result (words.new ≡ words.old) }
{
    let ones = ones_of(alloc, &origin.lists)?;
    let rows = rows_with(&origin.lists, &ones);
    move_on(alloc, origin.program, rows, origin.start, round, words)
}

/// Writes the words after a round of a program that is read, on lists that are rows.
fn put_rounds(
    alloc: Global,
    origin: &ReadStart<'_>,
    round: u32,
    words: &mut [u32],
    fields: &mut u32,
) -> Result<(), LargeCallFault>
    requires rows { AreRows origin.now.lists }
    ensures written { OnOk result (AreMoved origin.now.program.now (rows_in origin.now.lists) origin.now.start round words.old words.new) }
    ensures fields { OnOk result (fields.new ≡ length origin.now.program.now.fields) }
    ensures kept { OnErr result (words.new ≡ words.old) }
    ensures sized { IfErr result (λ f. f ≢ fault.WordCount → fields.new ≡ fields.old) }
    ensures refused { IfErr result (IsNoMove origin.now.program.now (length origin.now.lists.offsets.now - 1) origin.now.start round (length words.old) fields.new) }
{
    check_span(origin.start, round)?;
    let field_count = origin.program.field_count();
    if words.len() != (origin.lists.offsets.len() - 1) * field_count as usize {
        *fields = field_count;
        return Err(LargeCallFault::WordCount);
    }
    move_on_lists(alloc, origin, round, words)?;
    *fields = field_count;
    Ok(())
}

/// Writes the words of all fields of all nodes after a round in place of those of an earlier round, the start, and how many
/// fields the program has. The word of field k of node u stands at u times the number of fields, and k more. Each weight is
/// 1 where there are none.
///
/// The first fault is answered: of the program, of the lists (`check_lists`), of the round (`TooManyRounds` above
/// 1,000,000,000, `RoundsBelowStart` below the start), and `WordCount` where there is not one word for each field of each
/// node, which tells how many fields there are. After a fault the words are as they were.
pub fn write_large_rounds(
    alloc: Global,
    origin: &ListsStart<'_>,
    round: u32,
    words: &mut [u32],
    fields: &mut u32,
) -> Result<(), LargeCallFault>
    ensures written { OnOk result (HasLargeRounds origin.now.program.now origin.now.lists.offsets.now origin.now.lists.neighbours.now origin.now.lists.weights.now origin.now.start round words.old words.new fields.new) }
    ensures kept { OnErr result (words.new ≡ words.old) }
    ensures sized { IfErr result (λ f. f ≢ fault.WordCount → fields.new ≡ fields.old) }
    ensures refused { IfErr result (IsRefusedRounds origin.now.program.now origin.now.lists.offsets.now origin.now.lists.neighbours.now origin.now.lists.weights.now origin.now.start round (length words.old) fields.new) }
    ensures long { IfErr result (IsLongLarge origin.now.program.now) }
{
    let (_source, program) = program_of(alloc, origin.program)?;
    check_lists(&origin.lists)?;
    let read = ReadStart {
        program: &program,
        lists: origin.lists,
        start: origin.start,
    };
    put_rounds(alloc, &read, round, words, fields)
}
