//! The sets of fields that openings name.
ghost use Rattle.std.specs.Prelude.{◌≡◌, ◌≢◌, ◌<◌, ◌≤◌, ℕ, ◌+◌, ◌++◌, ◌∷◌, [], List, take, true, false, length, slice_index_or, replicate, Some, None, OnOk, IfOk, IfErr, if◌then◌else◌};
ghost use Rattle.std.specs.List.{list_any};
ghost use Rattle.std.specs.Str.{bytes_eq};
ghost use Rattle.std.specs.Ordering.{nat_cmp};
ghost use Rattle.std.specs.declared.cmp.Ordering.TheVariants.{Less};
ghost use Rattle.std.specs.Cmp.Lexicographic.{slice_cmp};
ghost use Rattle.link_net.specs.declared.field_set.FieldSet.{FieldSet};
ghost use Rattle.link_net.specs.Names.{AreRising};
ghost use Rattle.net_initial.specs.Opened.{pairs_at, given, is_undefined, opened_value, opened_set, is_named, has_undefined, set_at, set_after, kept_sets, AreOpened};
ghost use Rattle.net_initial.specs.Placed.{put_set};

use crate::table::{put_openings, put_pairs, shown_pairs};
use crate::{OpenFault, Opening};
use link_net::{FieldSet, Name, Pairs};
use std::alloc::{AllocError, Global};

/// The pairs of a field, none where it has no set.
fn pairs_at<'a>(sets: &'a [FieldSet], field: &str) -> &'a [(i64, i64)]
    ensures { result.now ≡ pairs_at sets.now field.now }
{
    for set in sets {
        if set.name.as_str() == field {
            return set.pairs.as_slice();
        }
    }
    &[]
}

/// The values of a field, node by node: those of the openings over those of the file.
fn opened_table(
    alloc: Global,
    nodes: u32,
    sets: &[FieldSet],
    openings: &[Opening],
    field: &str,
) -> Result<Vec<Option<u32>>, OpenFault>
    requires { nodes ≤ 4294967295 }
    ensures count { IfOk result (λ v. length v.items ≡ nodes) }
    ensures values { IfOk result (λ v. (u : ℕ) → u < nodes
        → slice_index_or v.items u None ≡ opened_value openings.now field.now u (given (pairs_at sets.now field.now) u)) }
    ensures defined { IfOk result (λ _. is_undefined nodes (pairs_at sets.now field.now) ≡ false) }
    ensures refused { IfErr result (λ fault. fault ≢ OpenFault.Memory → (fault ≡ OpenFault.BadSet) × (is_undefined nodes (pairs_at sets.now field.now) ≡ true)) }
{
    let mut table = vec![in alloc; None; nodes as usize]?;
    if !put_pairs(&mut table, pairs_at(sets, field)) {
        return Err(OpenFault::BadSet);
    }
    put_openings(&mut table, openings, field);
    Ok(table)
}

/// The set of a field, opened.
fn opened_set(
    alloc: Global,
    nodes: u32,
    sets: &[FieldSet],
    openings: &[Opening],
    field: &str,
) -> Result<FieldSet, OpenFault>
    requires { nodes ≤ 4294967295 }
    ensures set { IfOk result (λ s. s ≡ opened_set nodes sets.now openings.now field.now) }
    ensures defined { IfOk result (λ _. is_undefined nodes (pairs_at sets.now field.now) ≡ false) }
    ensures refused { IfErr result (λ fault. fault ≢ OpenFault.Memory → (fault ≡ OpenFault.BadSet) × (is_undefined nodes (pairs_at sets.now field.now) ≡ true)) }
{
    let table = opened_table(alloc, nodes, sets, openings, field)?;
    let pairs = shown_pairs(alloc, table.as_slice())?;
    let name = String::from_str(alloc, field)?;
    Ok(FieldSet {
        name: Name::new(name),
        pairs: Pairs::new(pairs),
    })
}

/// How many sets, from the first one on, have names below a name.
fn place_of(sets: &[FieldSet], name: &str) -> usize
    ensures bound { result ≤ length sets.now }
    ensures below { (k : ℕ) (d : FieldSet) → k < result → slice_cmp nat_cmp (slice_index_or sets.now k d).name name.now ≡ Less }
    ensures stops { (d : FieldSet) → result < length sets.now → slice_cmp nat_cmp (slice_index_or sets.now result d).name name.now ≢ Less }
{
    for place in 0..sets.len() {
        if sets[place].name.as_str() >= name {
            return place;
        }
    }
    sets.len()
}

/// Puts a set among sets by rising names, in place of the one of its name, where there is one.
fn put_set(sets: &mut Vec<FieldSet>, set: FieldSet) -> Result<(), AllocError>
    ensures { OnOk result (sets.new.items ≡ put_set set sets.old.items) }
{
    let place = place_of(sets.as_slice(), set.name.as_str());
    if place < sets.len() && sets[place].name.as_str() == set.name.as_str() {
        sets[place] = set;
        return Ok(());
    }
    sets.insert(place, set)?;
    Ok(())
}

/// A set with the same name and pairs.
fn copy_of(alloc: Global, set: &FieldSet) -> Result<FieldSet, AllocError>
    ensures { IfOk result (λ s. s ≡ set.now) }
{
    let name = String::from_str(alloc, set.name.as_str())?;
    let pairs = Vec::from_slice(alloc, set.pairs.as_slice())?;
    Ok(FieldSet {
        name: Name::new(name),
        pairs: Pairs::new(pairs),
    })
}

/// The same sets.
fn copied(alloc: Global, sets: &[FieldSet]) -> Result<Vec<FieldSet>, AllocError>
    ensures { IfOk result (λ v. v.items ≡ sets.now) }
{
    let mut copies = Vec::with_capacity(alloc, sets.len())?;
    for set in sets {
        let copy = copy_of(alloc, set)?;
        copies.push(copy)?;
    }
    Ok(copies)
}

/// Whether the field is one that is cleared.
fn is_cleared(cleared: &[Name], field: &str) -> bool
    ensures { result ≡ list_any (bytes_eq field.now) cleared.now }
{
    cleared.iter().any(|name| field == name.as_str())
}

/// Puts a copy of a set after the others, unless its field is cleared.
fn put_kept(
    kept: &mut Vec<FieldSet>,
    alloc: Global,
    set: &FieldSet,
    cleared: &[Name],
) -> Result<(), AllocError>
    ensures kept { OnOk result (kept.new.items ≡ kept.old.items ++ kept_sets cleared.now (set.now ∷ [])) }
{
    if is_cleared(cleared, set.name.as_str()) {
        return Ok(());
    }
    let copy = copy_of(alloc, set)?;
    kept.push(copy)?;
    Ok(())
}

/// The sets of the fields that are not cleared.
fn kept_sets(
    alloc: Global,
    sets: &[FieldSet],
    cleared: &[Name],
) -> Result<Vec<FieldSet>, AllocError>
    ensures kept { IfOk result (λ v. v.items ≡ kept_sets cleared.now sets.now) }
{
    let mut kept = Vec::with_capacity(alloc, sets.len())?;
    for set in sets {
        put_kept(&mut kept, alloc, set, cleared)?;
    }
    Ok(kept)
}

/// Whether some opening is of the field.
fn is_named(openings: &[Opening], field: &str) -> bool
    ensures { result ≡ is_named openings.now field.now }
{
    openings
        .iter()
        .any(|opening| opening.field.as_str() == field)
}

/// Puts the opened set of the field of an opening among the sets, where no opening before it is of the field.
fn put_field(
    alloc: Global,
    nodes: u32,
    opened: &mut Vec<FieldSet>,
    sets: &[FieldSet],
    openings: &[Opening],
    place: usize,
) -> Result<(), OpenFault>
    requires few { nodes ≤ 4294967295 }
    requires low { place < length openings.now }
    requires rising { AreRising opened.old.items }
    requires each { (f : List ℕ) → set_at opened.old.items f ≡ set_after nodes sets.now openings.now (take place openings.now) f }
    requires defined { has_undefined nodes sets.now (take place openings.now) ≡ false }
    ensures rising { OnOk result (AreRising opened.new.items) }
    ensures each { OnOk result ((f : List ℕ) → set_at opened.new.items f ≡ set_after nodes sets.now openings.now (take (place + 1) openings.now) f) }
    ensures defined { OnOk result (has_undefined nodes sets.now (take (place + 1) openings.now) ≡ false) }
    ensures refused { IfErr result (λ fault. fault ≢ OpenFault.Memory → (fault ≡ OpenFault.BadSet) × (has_undefined nodes sets.now openings.now ≡ true)) }
{
    let field = openings[place].field.as_str();
    if is_named(&openings[..place], field) {
        return Ok(());
    }
    let set = opened_set(alloc, nodes, sets, openings, field)?;
    put_set(opened, set)?;
    Ok(())
}

/// Sets, opened: those of the fields that no opening names as they are.
fn opened_sets(
    alloc: Global,
    nodes: u32,
    sets: &[FieldSet],
    openings: &[Opening],
) -> Result<Vec<FieldSet>, OpenFault>
    requires few { nodes ≤ 4294967295 }
    requires rising { AreRising sets.now }
    ensures opened { IfOk result (λ v. AreOpened nodes sets.now openings.now v.items) }
    ensures defined { IfOk result (λ _. has_undefined nodes sets.now openings.now ≡ false) }
    ensures refused { IfErr result (λ fault. fault ≢ OpenFault.Memory → (fault ≡ OpenFault.BadSet) × (has_undefined nodes sets.now openings.now ≡ true)) }
{
    let mut opened = copied(alloc, sets)?;
    for place in 0..openings.len() {
        put_field(alloc, nodes, &mut opened, sets, openings, place)?;
    }
    Ok(opened)
}

/// The sets of a file, those of the fields that are cleared left aside, opened.
pub(crate) fn sets_anew(
    alloc: Global,
    nodes: u32,
    sets: &[FieldSet],
    cleared: &[Name],
    openings: &[Opening],
) -> Result<Vec<FieldSet>, OpenFault>
    requires few { nodes ≤ 4294967295 }
    requires rising { AreRising sets.now }
    ensures opened { IfOk result (λ v. AreOpened nodes (kept_sets cleared.now sets.now) openings.now v.items) }
    ensures defined { IfOk result (λ _. has_undefined nodes (kept_sets cleared.now sets.now) openings.now ≡ false) }
    ensures refused { IfErr result (λ fault. fault ≢ OpenFault.Memory → (fault ≡ OpenFault.BadSet) × (has_undefined nodes (kept_sets cleared.now sets.now) openings.now ≡ true)) }
{
    let kept = kept_sets(alloc, sets, cleared)?;
    opened_sets(alloc, nodes, kept.as_slice(), openings)
}
