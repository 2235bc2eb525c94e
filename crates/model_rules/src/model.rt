//! From a model to the items of a program.

ghost use Rattle.std.specs.Prelude.{◌≡◌, ◌≢◌, ◌++◌, ◌≤◌, [], IfOk, IfErr, OnOk, List, ℕ, map, string_bytes, Some, None, true};
ghost use Rattle.rule_lang.specs.View.{items_of as rules_of};
ghost use Rattle.rule_check.specs.declared.state.State.{State};
ghost use Rattle.rule_check.specs.declared.state.Near.{Near};
ghost use Rattle.rule_check.specs.Value.{Here, next_state, names_of};
ghost use Rattle.rule_check.specs.Items.{rules_of as program_of};
ghost use Rattle.model_text.specs.View.{items_of, item_of, name_of};
ghost use Rattle.model_rules.specs.declared.fault.ExpandFault.TheVariants.{Memory};
ghost use Rattle.model_rules.specs.Bounds.{IsAccepted};
ghost use Rattle.model_rules.specs.Expansions.{AreStable};
ghost use Rattle.model_rules.specs.Models.{bare, draws_of, fields_of, in_states, initials_of, model_next, setting, worths_by};
ghost use Rattle.model_rules.specs.Naming.{naming_fault};
ghost use Rattle.model_rules.specs.Definitions.{defined_by, names_defined, settled, defining_fault, seed_first};
ghost use Rattle.model_rules.specs.FirstFaults.{IsFirst};
ghost use Rattle.model_rules.specs.ModelRefusals.{IsFirstRefusal, IsProgramMade, IsSound};
ghost use Rattle.model_rules.specs.ScopeView.{IsScopeOf, givens_of, knowns_of, later_of};

use crate::define::{define_all, seed_lets};
use crate::fault::ExpandFault;
use crate::naming::name_fault;
use crate::places::draw_places;
use crate::rules::rules_for;
use crate::scope::{Given, Scope};
use model_text::{Item, Name};
use rule_lang::Item as Rule;
use std::alloc::{AllocError, Global};

/// The names of the fields, in order.
fn field_names(items: &[Item], alloc: Global) -> Result<Vec<String>, AllocError>
    ensures exact { IfOk result (λ names. map string_bytes names.items ≡ fields_of (items_of items.now)) }
{
    let mut names = Vec::new(alloc);
    for item in items {
        if let Item::Field { name, .. } = item {
            names.push(String::from_str(alloc, &name.name)?)?;
        }
    }
    Ok(names)
}

/// Adds the names of states.
fn add_states(names: &mut Vec<String>, members: &[Name], alloc: Global) -> Result<(), AllocError>
    ensures added { OnOk result (map string_bytes names.new.items ≡ map string_bytes names.old.items ++ bare (map name_of members.now)) }
{
    for member in members {
        names.push(String::from_str(alloc, &member.name)?)?;
    }
    Ok(())
}

/// Adds the names that an item defines.
fn add_defined(names: &mut Vec<String>, item: &Item, alloc: Global) -> Result<(), AllocError>
    ensures added { OnOk result (map string_bytes names.new.items ≡ map string_bytes names.old.items ++ defined_by (item_of item.now)) }
{
    match item {
        Item::Const { name, .. } | Item::Let { name, .. } => {
            names.push(String::from_str(alloc, &name.name)?)?;
        }
        Item::States { members, .. } => add_states(names, members, alloc)?,
        Item::Field { .. } | Item::Next { .. } => {}
    }
    Ok(())
}

/// The names of all constants, states and lets.
fn defined_names(items: &[Item], alloc: Global) -> Result<Vec<String>, AllocError>
    ensures exact { IfOk result (λ names. map string_bytes names.items ≡ names_defined (items_of items.now)) }
{
    let mut names = Vec::new(alloc);
    for item in items {
        add_defined(&mut names, item, alloc)?;
    }
    Ok(names)
}

/// Nothing is wrong with the names of a model.
fn check_names(items: &[Item], given: &[Given], alloc: Global) -> Result<(), ExpandFault>
    ensures named { OnOk result (naming_fault (items_of items.now) (givens_of given.now) ≡ None) }
    ensures misnamed { IfErr result (λ e. e ≢ Memory → naming_fault (items_of items.now) (givens_of given.now) ≡ Some e) }
{
    match name_fault(items, given, alloc)? {
        Some(fault) => Err(fault),
        None => Ok(()),
    }
}

/// What is known of a model before its constants, states and lets are.
fn first_scope(items: &[Item], given: &[Given], alloc: Global) -> Result<Scope, AllocError>
    ensures fields { IfOk result (λ scope. map string_bytes scope.fields.items ≡ fields_of (items_of items.now)) }
    ensures draws { IfOk result (λ scope. scope.draws.items ≡ draws_of (items_of items.now)) }
    ensures later { IfOk result (λ scope. later_of scope ≡ names_defined (items_of items.now)) }
    ensures of { IfOk result (λ scope. IsScopeOf (items_of items.now) scope) }
    ensures first { IfOk result (λ scope. knowns_of scope.lets.items ≡ seed_first (items_of items.now) (givens_of given.now)) }
    ensures stable { IfOk result (λ scope. AreStable (items_of items.now) (setting (items_of items.now) (givens_of given.now)) (map string_bytes scope.fields.items) (knowns_of scope.lets.items)) }
{
    let draws = draw_places(items, alloc)?;
    let fields = field_names(items, alloc)?;
    let lets = seed_lets(items, given, alloc)?;
    let later = defined_names(items, alloc)?;
    Ok(Scope {
        draws,
        fields,
        lets,
        later,
        parameters: Vec::new(alloc),
    })
}

/// What the names of a model stand for outside of its lets.
fn known_scope(items: &[Item], given: &[Given], alloc: Global) -> Result<Scope, ExpandFault>
    ensures fields { IfOk result (λ scope. map string_bytes scope.fields.items ≡ fields_of (items_of items.now)) }
    ensures plain { IfOk result (λ scope. scope.parameters.items ≡ []) }
    ensures draws { IfOk result (λ scope. scope.draws.items ≡ draws_of (items_of items.now)) }
    ensures later { IfOk result (λ scope. later_of scope ≡ names_defined (items_of items.now)) }
    ensures known { IfOk result (λ scope. knowns_of scope.lets.items ≡ settled (items_of items.now) (givens_of given.now) (seed_first (items_of items.now) (givens_of given.now))) }
    ensures faultless { OnOk result (defining_fault (items_of items.now) (givens_of given.now) (seed_first (items_of items.now) (givens_of given.now)) ≡ None) }
    ensures refused { IfErr result (IsFirst (defining_fault (items_of items.now) (givens_of given.now) (seed_first (items_of items.now) (givens_of given.now)))) }
    ensures stable { IfOk result (λ scope. AreStable (items_of items.now) (setting (items_of items.now) (givens_of given.now)) (map string_bytes scope.fields.items) (knowns_of scope.lets.items)) }
{
    let names = defined_names(items, alloc)?;
    let mut scope = first_scope(items, given, alloc)?;
    define_all(&names, items, given, &mut scope, alloc)?;
    scope.parameters = Vec::new(alloc);
    Ok(scope)
}

/// The items of the program that a model is expanded to, where the caller sets these constants; of several values for
/// one name the first counts.
///
/// From some depth on at which names are looked up, the next state of each node is the model's, whatever the round, the
/// number, the state and the neighbours are, and so are the initial values. It has a rule for each field and each next
/// value, in their order, as docs/models.md tells it. The program is accepted: `read_program` and
/// `check` give it, running out of memory aside. `Cause` says when each error comes.
pub fn expand_model(
    items: &[Item],
    given: &[Given],
    alloc: Global,
) -> Result<Vec<Rule>, ExpandFault>
    ensures next { IfOk result (λ rules. (k : ℕ) × ((n : ℕ) → k ≤ n → (round id : ℕ) (own : State) (nears : List Near)
        → next_state (program_of (rules_of rules.items)) round id own nears
        ≡ model_next (items_of items.now) (worths_by (items_of items.now) (setting (items_of items.now) (givens_of given.now)) n) round id own nears)) }
    ensures initial { IfOk result (λ rules. (k : ℕ) × ((n : ℕ) → k ≤ n → (here : Here) → here.names ≡ fields_of (items_of items.now)
        → map (λ f. f.opening) (program_of (rules_of rules.items)).fields
        ≡ initials_of (items_of items.now) (draws_of (items_of items.now)) (worths_by (items_of items.now) (setting (items_of items.now) (givens_of given.now)) n) here)) }
    ensures states { IfOk result (λ rules. in_states (items_of items.now) (items_of items.now) (map (λ f. f.opening) (program_of (rules_of rules.items)).fields) ≡ true) }
    ensures fields { IfOk result (λ rules. names_of (program_of (rules_of rules.items)) ≡ fields_of (items_of items.now)) }
    ensures form { IfOk result (λ rules. IsProgramMade (items_of items.now) (givens_of given.now) (rules_of rules.items)) }
    ensures fits { IfOk result (λ rules. IsAccepted (rules_of rules.items)) }
    ensures named { IfOk result (λ rules. naming_fault (items_of items.now) (givens_of given.now) ≡ None) }
    ensures misnamed { (fault : ExpandFault) → naming_fault (items_of items.now) (givens_of given.now) ≡ Some fault → IfErr result (λ e. e ≢ Memory → e ≡ fault) }
    ensures faultless { OnOk result (IsSound (items_of items.now) (givens_of given.now)) }
    ensures refused { IfErr result (IsFirstRefusal (items_of items.now) (givens_of given.now)) }
{
    check_names(items, given, alloc)?;
    let scope = known_scope(items, given, alloc)?;
    let rules = rules_for(items, &scope, alloc)?;
    Ok(rules)
}
