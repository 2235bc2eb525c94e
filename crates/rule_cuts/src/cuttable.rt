//! The products and totals of a program that can be cut, with their places.

ghost use Rattle.std.specs.Prelude.{◌≡◌, ◌≤◌, length, map, zip, IfOk};
ghost use Rattle.std.specs.List.{filter};
ghost use Rattle.rule_lang.specs.View.{items_of};
ghost use Rattle.rule_lang.specs.Program.{HasProgram};
ghost use Rattle.rule_cuts.specs.Operations.{can_pass};
ghost use Rattle.rule_cuts.specs.Cuttable.{AreCuttable, placed_of};

use crate::limits::Limits;
use crate::operations::{Operation, can_be_cut, operations_in};
use crate::places::operation_places;
use rule_lang::Item;
use std::alloc::{AllocError, Global};

/// A product or a total that can be cut.
#[derive(Clone, Copy)]
pub struct Cuttable<'a> {
    pub operation: Operation<'a>,
    /// The place of its `*` or `total` in the program's text, in bytes from 0.
    pub at: usize,
}

/// Those of the operations that can be cut, each with its place.
fn cuttable_among<'a>(
    alloc: Global,
    operations: &[Operation<'a>],
    places: &[usize],
    limits: &Limits<'_>,
) -> Result<Vec<Cuttable<'a>>, AllocError>
    ensures exact { IfOk result (λ v. map placed_of v.items ≡ filter (λ p. can_pass limits.now p.0) (zip operations.now places.now)) }
{
    let mut found = Vec::new(alloc);
    for (operation, at) in operations.iter().zip(places) {
        if can_be_cut(*operation, limits) {
            found.push(Cuttable {
                operation: *operation,
                at: *at,
            })?;
        }
    }
    Ok(found)
}

/// The products and totals of a program that can be cut at nodes within the limits, each with its place, in the order of
/// its text. `items` are those of the text.
pub fn cuttable_in<'a>(
    alloc: Global,
    text: &[u8],
    items: &'a [Item],
    limits: &Limits<'_>,
) -> Result<Vec<Cuttable<'a>>, AllocError>
    ensures noted { IfOk result (λ v. length text.now ≤ 65536 → HasProgram text.now (items_of items.now) → AreCuttable limits.now text.now (items_of items.now) v.items) }
{
    let operations = operations_in(alloc, items, limits)?;
    let places = operation_places(alloc, text)?;
    cuttable_among(alloc, &operations, &places, limits)
}
