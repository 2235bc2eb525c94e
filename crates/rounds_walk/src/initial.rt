//! The initial states of nodes, and values that are put into them.
ghost use Rattle.std.specs.Prelude.{◌≡◌, ◌<◌, IfOk, IfErr, OnOk, OnErr, Ok, Err, Some, All, length, map, replicate, slice_set};
ghost use Rattle.rule_check.specs.Value.{opening_of};
ghost use Rattle.rounds_plan.specs.Configs.{IsPlain};
ghost use Rattle.rounds_plan.specs.Opening.{with_value};
ghost use Rattle.rounds_walk.specs.Values.{set_at_node, set_at_all};

use crate::fault::SetFault;
use rule_check::{Program, State};
use std::alloc::{AllocError, Global};

/// The program's initial state for each of so many nodes.
pub fn openings(alloc: Global, program: &Program, nodes: u32) -> Result<Vec<State>, AllocError>
    ensures states { IfOk result (λ v. v.items ≡ replicate nodes (opening_of program.now)) }
    ensures plain { IfOk result (λ v. All (IsPlain (length program.now.fields)) v.items) }
{
    let states = vec![in alloc; program.opening(); nodes as usize]?;
    Ok(states)
}

/// Puts a value into a field of one node, or says why there is no such place, and then changes nothing. Fields are
/// counted from 0 in order of declaration.
pub fn set_value(
    program: &Program,
    states: &mut [State],
    node: u32,
    field: u32,
    value: u32,
) -> Result<(), SetFault>
    ensures set { OnOk result (set_at_node program.now states.old node field value ≡ Ok states.new) }
    ensures refused { IfErr result (λ fault. set_at_node program.now states.old node field value ≡ Err fault) }
    ensures unchanged { OnErr result (states.new ≡ states.old) }
    ensures plain { All (IsPlain (length program.now.fields)) states.old → All (IsPlain (length program.now.fields)) states.new }
{
    if field >= program.field_count() {
        return Err(SetFault::NoField);
    }
    if node as usize >= states.len() {
        return Err(SetFault::NoNode);
    }
    states[node as usize].words[field as usize] = value;
    Ok(())
}

/// Puts a value into a field of each of the states.
fn fill(states: &mut [State], field: u32, value: u32)
    requires field { field < 8 }
    ensures each { states.new ≡ map (with_value field (Some value)) states.old }
{
    for state in states.iter_mut() {
        state.words[field as usize] = value;
    }
}

/// Puts a value into a field of all nodes, or says that there is no such field, and then changes nothing. Fields are
/// counted from 0 in order of declaration.
pub fn set_all_values(
    program: &Program,
    states: &mut [State],
    field: u32,
    value: u32,
) -> Result<(), SetFault>
    ensures set { OnOk result (set_at_all program.now states.old field value ≡ Ok states.new) }
    ensures refused { IfErr result (λ fault. set_at_all program.now states.old field value ≡ Err fault) }
    ensures unchanged { OnErr result (states.new ≡ states.old) }
    ensures plain { All (IsPlain (length program.now.fields)) states.old → All (IsPlain (length program.now.fields)) states.new }
{
    if field >= program.field_count() {
        return Err(SetFault::NoField);
    }
    fill(states, field, value);
    Ok(())
}
