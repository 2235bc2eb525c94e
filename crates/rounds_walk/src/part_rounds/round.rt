//! A round of a part of a network.
ghost use Rattle.std.specs.Prelude.{◌≡◌, ◌*◌, ◌/◌, ◌≤◌, length, IfOk, IfErr, OnOk, OnErr, Some, None};
ghost use Rattle.link_net.specs.Neighbours.{AreRows};
ghost use Rattle.rounds_walk.specs.part_rounds.Fitting.{Fits, states_in};
ghost use Rattle.rounds_walk.specs.part_rounds.Parts.{changed_count, part_fault_of, own_nodes, part_states};
ghost use Rattle.rounds_walk.specs.part_rounds.States.{states_of, words_in};

use crate::part_rounds::fault::PartFault;
use crate::part_rounds::next::{Part, next_of, state_of_node};
use crate::part_rounds::states::put_state;
use link_net::NetRows;
use rule_check::Program;

/// How many nodes have so many words, one for each field; none where there is no field.
fn nodes_with(words: usize, fields: usize) -> usize
    ensures count { result ≡ words / fields }
    ensures whole { result * fields ≤ words }
{
    words.checked_div(fields).unwrap_or(0)
}

/// How many nodes the part has of its own, or the first thing that does not fit.
fn check_part(
    program: &Program,
    ids: &[u32],
    rows: &NetRows<'_>,
    from: &[u32],
    room: usize,
) -> Result<u32, PartFault>
    ensures own { IfOk result (λ own. own ≡ own_nodes program.now room) }
    ensures within { IfOk result (λ own. own ≤ length rows.now) }
    ensures whole { IfOk result (λ own. room ≡ own * length program.now.fields) }
    ensures rows { OnOk result (AreRows rows.now) }
    ensures ids { OnOk result (length ids.now ≡ length rows.now) }
    ensures words { OnOk result (length from.now ≡ length rows.now * length program.now.fields) }
    ensures sound { OnOk result (part_fault_of program.now ids.now rows.now (length from.now) room ≡ None) }
    ensures refused { IfErr result (λ fault. part_fault_of program.now ids.now rows.now (length from.now) room ≡ Some fault) }
{
    let nodes = rows.nodes();
    let fields = program.field_count() as usize;
    if ids.len() != nodes as usize {
        return Err(PartFault::NumberCount);
    }
    if from.len() != nodes as usize * fields {
        return Err(PartFault::WordCount);
    }
    let own = nodes_with(room, fields);
    if own > nodes as usize || own * fields != room {
        return Err(PartFault::RoomCount);
    }
    Ok(own as u32)
}

/// Writes the words of the next states of the first nodes, and answers how many of these changed.
fn step(part: &Part<'_>, own_nodes: u32, to: &mut [u32]) -> usize
    requires part { Fits part.now }
    requires own { own_nodes ≤ length part.now.rows.now }
    requires room { length to.old ≡ own_nodes * part.now.fields }
    ensures next { to.new ≡ words_in part.now.fields (part_states part.now.program.now part.now.ids.now part.now.rows.now part.now.round (states_in part.now) own_nodes) }
    ensures changed { result ≡ changed_count part.now.program.now part.now.ids.now part.now.rows.now part.now.round (states_in part.now) own_nodes }
{
    let mut changed = 0;
    for node in 0..own_nodes {
        let own = state_of_node(part, node);
        let next = next_of(part, node, own);
        put_state(to, node as usize * part.fields, &next, part.fields);
        if next != own {
            changed += 1;
        }
    }
    changed
}

/// Computes the next states of a part's own nodes in the step from a round, counted from round 0, and answers how many
/// of them changed. No memory is taken.
///
/// The rows say, for each node of the part, its neighbours by their places in the part; `ids` says the number of each in
/// the whole network, which is what the program sees. The own nodes come first, and then those that are only neighbours
/// of them; what neighbours these have plays no part. `from` has the words of all nodes before the round, and `to` takes
/// those of the own nodes after it, in both the word of field k of node u at u times the number of fields, and k more. So
/// the length of `to` says how many own nodes there are, none where the program has no field.
///
/// The first fault in the order of [`PartFault`] is answered, and then `to` is unchanged.
pub fn part_round(
    program: &Program,
    ids: &[u32],
    rows: &NetRows<'_>,
    round: u32,
    from: &[u32],
    to: &mut [u32],
) -> Result<usize, PartFault>
    ensures next { OnOk result (to.new ≡ words_in (length program.now.fields) (part_states program.now ids.now rows.now round
        (states_of (length program.now.fields) (length rows.now) from.now) (own_nodes program.now (length to.old)))) }
    ensures changed { IfOk result (λ changed. changed ≡ changed_count program.now ids.now rows.now round
        (states_of (length program.now.fields) (length rows.now) from.now) (own_nodes program.now (length to.old))) }
    ensures sound { OnOk result (part_fault_of program.now ids.now rows.now (length from.now) (length to.old) ≡ None) }
    ensures refused { IfErr result (λ fault. part_fault_of program.now ids.now rows.now (length from.now) (length to.old) ≡ Some fault) }
    ensures unchanged { OnErr result (to.new ≡ to.old) }
    ensures length { length to.new ≡ length to.old }
{
    let own_nodes = check_part(program, ids, rows, from, to.len())?;
    let part = Part {
        program,
        ids,
        rows,
        round,
        from,
        fields: program.field_count() as usize,
    };
    Ok(step(&part, own_nodes, to))
}
