//! The steps that are open.
ghost use Rattle.std.specs.Prelude.{◌≡◌, ◌++◌, ◌∷◌, [], true, All, OnOk, IfOk, if◌then◌else◌};
ghost use Rattle.run_schedule.specs.Walks.{AtRest, RestsAt, is_open};

use crate::walk::Walk;
use std::alloc::{AllocError, Global};
use unison_world::Step;

/// Puts a step to those found, where it is open.
fn find(walk: &Walk, step: Step, found: &mut Vec<Step>) -> Result<(), AllocError>
    ensures found { OnOk result (found.new.items ≡ (if is_open walk.now step then found.old.items ++ step ∷ [] else found.old.items)) }
{
    if walk.is_open(step) {
        found.push(step)?;
    }
    Ok(())
}

/// Puts the open steps of a node to those found.
fn find_at(walk: &Walk, node: u32, found: &mut Vec<Step>) -> Result<(), AllocError>
    ensures opens { OnOk result (All (λ step. is_open walk.now step ≡ true) found.old.items → All (λ step. is_open walk.now step ≡ true) found.new.items) }
    ensures none { OnOk result (found.new.items ≡ [] → (found.old.items ≡ []) × RestsAt walk.now node) }
{
    for slot in 0..walk.network().degree_of(node) {
        find(walk, Step::Read { node, slot }, found)?;
    }
    find(walk, Step::Write { node }, found)?;
    Ok(())
}

/// The open steps, by rising node and slot.
pub(crate) fn open_steps(alloc: Global, walk: &Walk) -> Result<Vec<Step>, AllocError>
    ensures opens { IfOk result (λ v. All (λ step. is_open walk.now step ≡ true) v.items) }
    ensures none { IfOk result (λ v. v.items ≡ [] → AtRest walk.now) }
{
    let mut found = Vec::new(alloc);
    for node in 0..walk.network().nodes() {
        find_at(walk, node, &mut found)?;
    }
    Ok(found)
}
