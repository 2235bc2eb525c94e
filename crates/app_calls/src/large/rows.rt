//! The rows of the lists of a network.
ghost use Rattle.std.specs.Prelude.{◌≡◌, length, replicate, IfOk};
ghost use Rattle.app_calls.specs.Lists.{AreRows, rows_in};

use crate::large::lists::Lists;
use link_net::NetRows;
use std::alloc::{AllocError, Global};

/// As many ones as there are neighbours, where the lists have no weights; else none.
pub(crate) fn ones_of(alloc: Global, lists: &Lists<'_>) -> Result<Vec<u32>, AllocError>
    ensures ones { IfOk result (λ v. length lists.now.weights.now ≡ 0 → v.items ≡ replicate (length lists.now.neighbours.now) 1) }
{
    if lists.weights.is_empty() {
        let ones = vec![in alloc; 1; lists.neighbours.len()]?;
        return Ok(ones);
    }
    Ok(Vec::new(alloc))
}

/// The rows of lists, which have these ones as weights where they have none of their own.
pub(crate) fn rows_with<'a>(lists: &Lists<'a>, ones: &'a [u32]) -> NetRows<'a>
    requires rows { AreRows lists.now }
    requires ones { length lists.now.weights.now ≡ 0 → ones.now ≡ replicate (length lists.now.neighbours.now) 1 }
    ensures rows { result ≡ rows_in lists.now }
{
    if lists.weights.is_empty() {
        return NetRows::new(lists.offsets, lists.neighbours, ones);
    }
    NetRows::new(lists.offsets, lists.neighbours, lists.weights)
}
