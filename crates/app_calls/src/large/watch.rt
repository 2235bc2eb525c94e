//! The words after each of a list of rounds of a program on the lists of a network.
ghost use Rattle.std.specs.Prelude.{◌≡◌, ◌≢◌, ◌-◌, length, IfErr, OnErr, OnOk};
ghost use Rattle.app_calls.specs.declared.fault.Fault.TheVariants as call;
ghost use Rattle.app_calls.specs.declared.large.fault.LargeCallFault.TheVariants as fault;
ghost use Rattle.app_calls.specs.Lists.{AreRows, rows_in};
ghost use Rattle.app_calls.specs.LargeAnswers.{IsLongLarge};
ghost use Rattle.app_calls.specs.WatchAnswers.{AreUnwatched, AreWatched, HaveLargeRounds, IsRefusedWatch};

use crate::Fault;
use crate::large::fault::LargeCallFault;
use crate::large::lists::check_lists;
use crate::large::start::{ListsStart, ReadStart};
use crate::large::telling::Telling;
use crate::large::told::{Asked, check_rounds, told_of_each};
use app_jobs::program_of;
use rounds_walk::part_rounds::put_words;
use std::alloc::Global;

/// Writes the words after each of the rounds of a program that is read, on lists that are rows.
fn put_watch(
    alloc: Global,
    origin: &ReadStart<'_>,
    from: &[u32],
    rounds: &[u32],
    words: &mut [u32],
    fields: &mut u32,
) -> Result<(), LargeCallFault>
    requires rows { AreRows origin.now.lists }
    ensures written { OnOk result (AreWatched origin.now.program.now (rows_in origin.now.lists) origin.now.start from.now rounds.now words.old words.new (length origin.now.lists.offsets.now - 1) fields.new) }
    ensures kept { OnErr result (words.new ≡ words.old) }
    ensures sized { IfErr result (λ f. f ≢ fault.WordCount → f ≢ fault.Call call.Room → fields.new ≡ fields.old) }
    ensures refused { IfErr result (AreUnwatched origin.now.program.now (rows_in origin.now.lists) origin.now.start from.now rounds.now (length words.old) (length origin.now.lists.offsets.now - 1) fields.new) }
{
    check_rounds(origin.start, rounds)?;
    let field_count = origin.program.field_count();
    let count = (origin.lists.offsets.len() - 1) * field_count as usize;
    if from.len() != count {
        *fields = field_count;
        return Err(LargeCallFault::WordCount);
    }
    let room = rounds.len().saturating_mul(count);
    if words.len() < room {
        *fields = field_count;
        return Err(LargeCallFault::Call(Fault::Room));
    }
    let asked = Asked {
        rounds,
        telling: Telling::Words,
        room,
    };
    let found = told_of_each(alloc, origin, from, &asked)?;
    put_words(words, 0, &found);
    *fields = field_count;
    Ok(())
}

/// Writes the words of all fields of all nodes after each of the rounds, of which each is above the one before it, one round
/// after the other, to the front of the words, and how many fields the program has. They are those of the rounds of the
/// plan whose nodes have the words `from` at the start, made in one pass. The word of field k of node u stands at u times
/// the number of fields, and k more, in each round's words as in `from`. Each weight is 1 where there are none. Without
/// rounds nothing is written but the number of fields.
///
/// The first fault is answered: of the program, of the lists (`check_lists`), of the list of rounds at its first bad one
/// (`TooManyRounds` above 1,000,000,000, `RoundsBelowStart` below the start, `NotRising` where it is not above the one
/// before it), `WordCount` where there is not one word in `from` for each field of each node, and `Room` where there is too
/// little room for the words of all rounds. The last two tell how many fields there are. After a fault the words are as they
/// were.
pub fn write_large_watch(
    alloc: Global,
    origin: &ListsStart<'_>,
    from: &[u32],
    rounds: &[u32],
    words: &mut [u32],
    fields: &mut u32,
) -> Result<(), LargeCallFault>
    ensures written { OnOk result (HaveLargeRounds origin.now.program.now origin.now.lists.offsets.now origin.now.lists.neighbours.now origin.now.lists.weights.now origin.now.start from.now rounds.now words.old words.new fields.new) }
    ensures kept { OnErr result (words.new ≡ words.old) }
    ensures sized { IfErr result (λ f. f ≢ fault.WordCount → f ≢ fault.Call call.Room → fields.new ≡ fields.old) }
    ensures refused { IfErr result (IsRefusedWatch origin.now.program.now origin.now.lists.offsets.now origin.now.lists.neighbours.now origin.now.lists.weights.now origin.now.start from.now rounds.now (length words.old) fields.new) }
    ensures long { IfErr result (IsLongLarge origin.now.program.now) }
{
    let (_source, program) = program_of(alloc, origin.program)?;
    check_lists(&origin.lists)?;
    let read = ReadStart {
        program: &program,
        lists: origin.lists,
        start: origin.start,
    };
    put_watch(alloc, &read, from, rounds, words, fields)
}
