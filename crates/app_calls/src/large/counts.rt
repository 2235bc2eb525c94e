//! How many nodes have each of some values after each of a list of rounds of a program on the lists of a network.
ghost use Rattle.std.specs.Prelude.{◌≡◌, ◌≢◌, ◌-◌, ◌<◌, ◌^◌, length, IfErr, MatchResult, OnErr, OnOk, Some, None};
ghost use Rattle.app_calls.specs.declared.fault.Fault.TheVariants as call;
ghost use Rattle.app_calls.specs.declared.large.fault.LargeCallFault.TheVariants as fault;
ghost use Rattle.app_calls.specs.Lists.{AreRows, rows_in};
ghost use Rattle.app_calls.specs.LargeAnswers.{IsLongLarge};
ghost use Rattle.app_calls.specs.CountAnswers.{AreCounted, AreUncounted, HaveLargeCounts, IsRefusedCounts, counts_fault};

use crate::Fault;
use crate::large::fault::LargeCallFault;
use crate::large::lists::check_lists;
use crate::large::start::{ListsStart, ReadStart};
use crate::large::telling::Telling;
use crate::large::told::{Asked, check_rounds, told_of_each};
use app_jobs::program_of;
use rounds_walk::part_rounds::put_words;
use std::alloc::Global;

/// So many values are counted at most: as many as a model names states of a field.
const MOST_VALUES: usize = 256;

/// What is counted, and when: the values of a field, counted from 0 in order of declaration, after each of the rounds.
#[derive(Clone, Copy)]
pub struct CountedRounds<'a> {
    pub rounds: &'a [u32],
    pub field: u32,
    pub values: &'a [u32],
}

/// Why counts are refused, if so: of so many nodes and fields there are so many words, and for the counts so much room.
fn check_counts(
    nodes: usize,
    fields: u32,
    words: usize,
    asked: &CountedRounds<'_>,
    room: usize,
) -> Result<(), LargeCallFault>
    requires few { nodes < 2 ^ 32 }
    requires room { room < 2 ^ 63 }
    ensures fault { MatchResult result (λ _. counts_fault nodes fields words asked.now.field (length asked.now.values.now) (length asked.now.rounds.now) room ≡ None) (λ f. counts_fault nodes fields words asked.now.field (length asked.now.values.now) (length asked.now.rounds.now) room ≡ Some f) }
{
    if words != nodes * fields as usize {
        return Err(LargeCallFault::WordCount);
    }
    if asked.field >= fields {
        return Err(LargeCallFault::NoField);
    }
    if asked.values.len() > MOST_VALUES {
        return Err(LargeCallFault::TooManyValues);
    }
    if room < asked.rounds.len().saturating_mul(asked.values.len() + 1) {
        return Err(LargeCallFault::Call(Fault::Room));
    }
    Ok(())
}

/// Writes the counts after each of the rounds of a program that is read, on lists that are rows.
fn put_counts(
    alloc: Global,
    origin: &ReadStart<'_>,
    from: &[u32],
    asked: &CountedRounds<'_>,
    counts: &mut [u32],
    fields: &mut u32,
) -> Result<(), LargeCallFault>
    requires rows { AreRows origin.now.lists }
    ensures written { OnOk result (AreCounted origin.now.program.now (rows_in origin.now.lists) origin.now.start from.now asked.now.rounds.now asked.now.field asked.now.values.now counts.old counts.new fields.new) }
    ensures kept { OnErr result (counts.new ≡ counts.old) }
    ensures sized { IfErr result (λ f. f ≢ fault.WordCount → f ≢ fault.NoField → f ≢ fault.TooManyValues → f ≢ fault.Call call.Room → fields.new ≡ fields.old) }
    ensures refused { IfErr result (AreUncounted origin.now.program.now (rows_in origin.now.lists) origin.now.start from.now asked.now.rounds.now asked.now.field (length asked.now.values.now) (length counts.old) (length origin.now.lists.offsets.now - 1) fields.new) }
{
    check_rounds(origin.start, asked.rounds)?;
    let field_count = origin.program.field_count();
    let nodes = origin.lists.offsets.len() - 1;
    let checked = check_counts(nodes, field_count, from.len(), asked, counts.len());
    if let Err(refused) = checked {
        *fields = field_count;
        return Err(refused);
    }
    let told = Asked {
        rounds: asked.rounds,
        telling: Telling::Counts {
            field: asked.field,
            values: asked.values,
        },
        room: asked.rounds.len() * (asked.values.len() + 1),
    };
    let found = told_of_each(alloc, origin, from, &told)?;
    put_words(counts, 0, &found);
    *fields = field_count;
    Ok(())
}

/// Writes how many nodes have each of the values in a field after each of the rounds, of which each is above the one before
/// it, one round after the other, to the front of the counts, and how many fields the program has. In each round there is a
/// number for each value, in their order, and last one for the nodes that have none of them. Fields are counted from 0 in
/// order of declaration. The rounds are those of the plan whose nodes have the words `from` at the start, made in one pass; the
/// word of field k of node u stands at u times the number of fields, and k more. Each weight is 1 where there are none. Without
/// rounds nothing is written but the number of fields.
///
/// The first fault is answered: of the program, of the lists (`check_lists`), of the list of rounds at its first bad one
/// (`TooManyRounds` above 1,000,000,000, `RoundsBelowStart` below the start, `NotRising` where it is not above the one
/// before it), `WordCount` where there is not one word in `from` for each field of each node, `NoField` where the program
/// lacks the field, `TooManyValues` above 256, and `Room` where there is too little room for the counts of all rounds. The
/// last four tell how many fields there are. After a fault the counts are as they were.
pub fn write_large_counts(
    alloc: Global,
    origin: &ListsStart<'_>,
    from: &[u32],
    asked: &CountedRounds<'_>,
    counts: &mut [u32],
    fields: &mut u32,
) -> Result<(), LargeCallFault>
    ensures written { OnOk result (HaveLargeCounts origin.now.program.now origin.now.lists.offsets.now origin.now.lists.neighbours.now origin.now.lists.weights.now origin.now.start from.now asked.now.rounds.now asked.now.field asked.now.values.now counts.old counts.new fields.new) }
    ensures kept { OnErr result (counts.new ≡ counts.old) }
    ensures sized { IfErr result (λ f. f ≢ fault.WordCount → f ≢ fault.NoField → f ≢ fault.TooManyValues → f ≢ fault.Call call.Room → fields.new ≡ fields.old) }
    ensures refused { IfErr result (IsRefusedCounts origin.now.program.now origin.now.lists.offsets.now origin.now.lists.neighbours.now origin.now.lists.weights.now origin.now.start from.now asked.now.rounds.now asked.now.field (length asked.now.values.now) (length counts.old) fields.new) }
    ensures long { IfErr result (IsLongLarge origin.now.program.now) }
{
    let (_source, program) = program_of(alloc, origin.program)?;
    check_lists(&origin.lists)?;
    let read = ReadStart {
        program: &program,
        lists: origin.lists,
        start: origin.start,
    };
    put_counts(alloc, &read, from, asked, counts, fields)
}
