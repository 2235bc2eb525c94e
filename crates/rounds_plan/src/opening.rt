//! The initial states of a plan: the program's initial values, replaced by those of `set`.
ghost use Rattle.link_net.specs.declared.field_set.FieldSet.{FieldSet};
ghost use Rattle.std.specs.Prelude.{List, [], ◌∷◌, ◌++◌, ◌≡◌, ◌≢◌, ℕ, ◌<◌, ◌≤◌, ◌^◌, Bool, true, false, not, length, vec_len, replicate, IfOk, IfErr, IfSome, All, MatchResult, OnOk, slice_index_or, Some, None, Ok, Err, if◌then◌else◌};
ghost use Rattle.std.specs.List.{list_any};
ghost use Rattle.rule_check.specs.Value.{names_of, place, opening_of};
ghost use Rattle.rule_check.specs.WellFormed.{is_among, has_twice};
ghost use Rattle.rounds_plan.specs.Configs.{blank, IsPlain};
ghost use Rattle.rounds_plan.specs.Plans.{is_below, number_of, has_bad_node, has_bad_value, has_number_twice, nodes_in, value_in, sets_twice, set_fault, openings_of, plan_of, IsPlan};
ghost use Rattle.rounds_plan.specs.Opening.{with_value};

use crate::fault::PlanFault;
use link_net::{FieldSet, NetFile};
use rule_check::{Program, State};
use std::alloc::{AllocError, Global};

/// Whether the number lies from 0 on, below the bound.
pub(crate) fn is_below(bound: u64, number: i64) -> bool
    requires bound { bound < 2 ^ 63 }
    ensures inside { result ≡ is_below bound number }
{
    number >= 0 && number < bound as i64
}

/// The number as one below the bound, where it lies there.
pub(crate) fn natural(bound: u64, number: i64) -> u64
    requires inside { is_below bound number ≡ true }
    ensures value { result ≡ number_of number }
    ensures below { result < bound }
{
    number as u64
}

/// Whether a number in the pairs is no node.
fn has_bad_node(nodes: u32, set: &FieldSet) -> bool
    ensures { result ≡ has_bad_node nodes set.now }
{
    set.pairs
        .as_slice()
        .iter()
        .any(|pair| !is_below(nodes as u64, pair.0))
}

/// Whether a value in the pairs lies outside 0 to 4,294,967,295.
fn has_bad_value(set: &FieldSet) -> bool
    ensures { result ≡ has_bad_value set.now }
{
    set.pairs
        .as_slice()
        .iter()
        .any(|pair| !is_below(4_294_967_296, pair.1))
}

/// Whether a node stands twice in the pairs; `seen` has a mark for each node, and none is set.
fn repeats_node(seen: &mut [bool], pairs: &[(i64, i64)]) -> bool
    requires nodes { list_any (λ p. not (is_below (length seen.old) p.0)) pairs.now ≡ false }
    requires fresh { seen.old ≡ replicate (length seen.old) false }
    requires few { length seen.old ≤ 4294967295 }
    ensures twice { result ≡ has_number_twice (nodes_in pairs.now) }
{
    for pair in pairs {
        let node = natural(seen.len() as u64, pair.0) as usize;
        if seen[node] {
            return true;
        }
        seen[node] = true;
    }
    false
}

/// Puts each pair's value into the field of its node.
fn put_values(states: &mut [State], field: u32, pairs: &[(i64, i64)])
    requires field { field < 8 }
    requires few { length states.old ≤ 4294967295 }
    requires nodes { list_any (λ p. not (is_below (length states.old) p.0)) pairs.now ≡ false }
    requires values { list_any (λ p. not (is_below 4294967296 p.1)) pairs.now ≡ false }
    ensures each { (u : ℕ) → u < length states.old
        → slice_index_or states.new u blank ≡ with_value field (value_in pairs.now u) (slice_index_or states.old u blank) }
{
    for pair in pairs {
        let node = natural(states.len() as u64, pair.0) as usize;
        let value = natural(4_294_967_296, pair.1) as u32;
        states[node].words[field as usize] = value;
    }
}

/// Whether a node stands twice in the list of one field.
fn sets_node_twice(alloc: Global, nodes: u32, sets: &[FieldSet]) -> Result<bool, AllocError>
    requires few { nodes ≤ 4294967295 }
    requires nodes { list_any (has_bad_node nodes) sets.now ≡ false }
    ensures twice { IfOk result (λ twice. twice ≡ list_any sets_twice sets.now) }
{
    for set in sets {
        let mut seen = vec![in alloc; false; nodes as usize]?;
        if repeats_node(&mut seen, set.pairs.as_slice()) {
            return Ok(true);
        }
    }
    Ok(false)
}

/// Whether a key is no field of the program.
fn has_unknown_field(program: &Program, sets: &[FieldSet]) -> bool
    ensures { result ≡ list_any (λ set. not (is_among (names_of program.now) set.name)) sets.now }
{
    sets.iter()
        .any(|set| program.field_index(set.name.as_str()).is_none())
}

/// Whether a number in some pairs is no node.
fn has_bad_nodes(nodes: u32, sets: &[FieldSet]) -> bool
    ensures { result ≡ list_any (has_bad_node nodes) sets.now }
{
    sets.iter().any(|set| has_bad_node(nodes, set))
}

/// Whether a value in some pairs lies outside 0 to 4,294,967,295.
fn has_bad_values(sets: &[FieldSet]) -> bool
    ensures { result ≡ list_any has_bad_value sets.now }
{
    sets.iter().any(|set| has_bad_value(set))
}

/// Checks the keys and the pairs of `set`: the first fault that they have. Memory is taken to look for `SetTwice`
/// alone.
fn check_sets(
    alloc: Global,
    program: &Program,
    nodes: u32,
    sets: &[FieldSet],
) -> Result<(), PlanFault>
    requires few { nodes ≤ 4294967295 }
    ensures ok { OnOk result (set_fault (names_of program.now) nodes sets.now ≡ None) }
    ensures err { IfErr result (λ fault. fault ≢ PlanFault.Memory → set_fault (names_of program.now) nodes sets.now ≡ Some fault) }
    ensures at_once { IfSome (set_fault (names_of program.now) nodes sets.now) (λ fault. fault ≢ PlanFault.SetTwice → result ≡ Err fault) }
{
    if has_unknown_field(program, sets) {
        return Err(PlanFault::UnknownField);
    }
    if has_bad_nodes(nodes, sets) {
        return Err(PlanFault::BadNode);
    }
    if has_bad_values(sets) {
        return Err(PlanFault::BadValue);
    }
    if sets_node_twice(alloc, nodes, sets)? {
        return Err(PlanFault::SetTwice);
    }
    Ok(())
}

/// Puts the values of one field more into the initial states.
fn put_set(program: &Program, states: &mut [State], set: &FieldSet)
    requires few { length states.old ≤ 4294967295 }
    requires known { is_among (names_of program.now) set.now.name ≡ true }
    requires nodes { has_bad_node (length states.old) set.now ≡ false }
    requires values { has_bad_value set.now ≡ false }
    ensures more { (before : List FieldSet) → states.old ≡ openings_of program.now (length states.old) before
        → states.new ≡ openings_of program.now (length states.old) (before ++ set.now ∷ []) }
{
    // For the proof: the program has at most 8 fields, no two of one name, and a state has eight words.
    let _few = program.field_count();
    let _opening = program.opening();
    if let Some(field) = program.field_index(set.name.as_str()) {
        put_values(states, field, set.pairs.as_slice());
    }
}

/// The initial states of so many nodes, where the keys and the pairs of `set` have no fault.
fn states_by(
    alloc: Global,
    program: &Program,
    nodes: u32,
    sets: &[FieldSet],
) -> Result<Vec<State>, AllocError>
    requires few { nodes ≤ 4294967295 }
    requires sets { set_fault (names_of program.now) nodes sets.now ≡ None }
    ensures states { IfOk result (λ v. v.items ≡ openings_of program.now nodes sets.now) }
    ensures plain { IfOk result (λ v. All (IsPlain (length program.now.fields)) v.items) }
{
    // For the proof: the program has at most 8 fields.
    let _few = program.field_count();
    let mut states = vec![in alloc; program.opening(); nodes as usize]?;
    for set in sets {
        put_set(program, &mut states, set);
    }
    Ok(states)
}

/// The initial states of so many nodes: the program's initial values, replaced by those of `set`. The first fault of the
/// keys and the pairs of `set` is answered; all but `SetTwice`, which takes a mark for each node, are found before any
/// memory is taken.
pub fn opening_states(
    alloc: Global,
    program: &Program,
    nodes: u32,
    sets: &[FieldSet],
) -> Result<Vec<State>, PlanFault>
    ensures states { IfOk result (λ v. v.items ≡ openings_of program.now nodes sets.now) }
    ensures plain { IfOk result (λ v. All (IsPlain (length program.now.fields)) v.items) }
    ensures faultless { OnOk result (set_fault (names_of program.now) nodes sets.now ≡ None) }
    ensures fault { IfErr result (λ fault. fault ≢ PlanFault.Memory → set_fault (names_of program.now) nodes sets.now ≡ Some fault) }
    ensures at_once { IfSome (set_fault (names_of program.now) nodes sets.now) (λ fault. fault ≢ PlanFault.SetTwice → result ≡ Err fault) }
{
    check_sets(alloc, program, nodes, sets)?;
    let states = states_by(alloc, program, nodes, sets)?;
    Ok(states)
}

/// The initial states of a plan, in the order of the nodes.
pub(crate) fn opening_by(
    alloc: Global,
    program: &Program,
    file: &NetFile,
) -> Result<Vec<State>, PlanFault>
    ensures states { IfOk result (λ v. plan_of program.now file.now ≡ Ok (record {
      program = program.now;
      network = file.now.network;
      phase = file.now.phase;
      opening = v.items;
      start = 0;
    })) }
    ensures fault { IfErr result (λ fault. fault ≢ PlanFault.Memory → plan_of program.now file.now ≡ Err fault) }
    ensures at_once { IfErr (plan_of program.now file.now) (λ fault. fault ≢ PlanFault.SetTwice → result ≡ Err fault) }
    ensures plan { IfOk result (λ v. IsPlan (record {
      program = program.now;
      network = file.now.network;
      phase = file.now.phase;
      opening = v.items;
      start = 0;
    })) }
{
    let nodes = file.network().nodes();
    // For the proof: the phase is at most 2, and the program has at most 8 fields.
    let _phase = file.phase();
    let _fields = program.field_count();
    let states = opening_states(alloc, program, nodes, file.sets())?;
    Ok(states)
}
