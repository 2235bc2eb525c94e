//! The words of a part's own nodes after a round, on the lists of the part.
ghost use Rattle.std.specs.Prelude.{◌≡◌, length, IfOk, IfErr, OnErr};
ghost use Rattle.app_calls.specs.Lists.{AreRows, rows_in};
ghost use Rattle.app_calls.specs.LargeAnswers.{IsLongLarge};
ghost use Rattle.app_calls.specs.PartAnswers.{HasPartRound, IsNoPart, IsPartRound, IsRefusedPart};

use crate::large::fault::LargeCallFault;
use crate::large::lists::{Lists, check_lists};
use crate::large::rows::{ones_of, rows_with};
use app_jobs::program_of;
use rounds_walk::part_rounds::part_round;
use rule_check::Program;
use std::alloc::Global;

/// A part of a network: the number of each of its nodes in the whole network, which is what a program sees, and its lists,
/// which call nodes by their places in the part.
#[derive(Clone, Copy)]
pub struct Part<'a> {
    pub ids: &'a [u32],
    pub lists: Lists<'a>,
}

/// Writes the words of the own nodes of a part whose lists are rows, each weight being 1 where there are none, and answers how
/// many of these nodes changed.
fn put_part(
    alloc: Global,
    program: &Program,
    part: &Part<'_>,
    round: u32,
    from: &[u32],
    to: &mut [u32],
) -> Result<usize, LargeCallFault>
    requires rows { AreRows part.now.lists }
    ensures written { IfOk result (IsPartRound program.now part.now.ids.now (rows_in part.now.lists) round from.now (length to.old) to.new) }
    ensures kept { OnErr result (to.new ≡ to.old) }
    ensures refused { IfErr result (IsNoPart program.now part.now.ids.now (rows_in part.now.lists) (length from.now) (length to.old)) }
{
    let ones = ones_of(alloc, &part.lists)?;
    let rows = rows_with(&part.lists, &ones);
    let changed = part_round(program, part.ids, &rows, round, from, to)?;
    Ok(changed)
}

/// Writes the words of a part's own nodes after the step from a round, counted from round 0, and answers how many of these
/// nodes changed. `from` has the words of all nodes of the part before the round, and `to` takes those of the first ones, the
/// own nodes, as many as it has room for: the word of field k of node u stands at u times the number of fields, and k more.
/// Each weight is 1 where there are none.
///
/// The first fault is answered, in this order: of the program, of the lists as [`check_lists`] tells it, and of what does
/// not fit as [`rounds_walk::part_rounds::PartFault`] tells it. After a fault `to` is as it was.
pub fn write_part_round(
    alloc: Global,
    program: &[u8],
    part: &Part<'_>,
    round: u32,
    from: &[u32],
    to: &mut [u32],
) -> Result<usize, LargeCallFault>
    ensures written { IfOk result (HasPartRound program.now part.now.ids.now part.now.lists.offsets.now part.now.lists.neighbours.now part.now.lists.weights.now round from.now (length to.old) to.new) }
    ensures kept { OnErr result (to.new ≡ to.old) }
    ensures refused { IfErr result (IsRefusedPart program.now part.now.ids.now part.now.lists.offsets.now part.now.lists.neighbours.now part.now.lists.weights.now (length from.now) (length to.old)) }
    ensures long { IfErr result (IsLongLarge program.now) }
{
    let (_source, program) = program_of(alloc, program)?;
    check_lists(&part.lists)?;
    put_part(alloc, &program, part, round, from, to)
}
