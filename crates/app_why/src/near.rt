//! The nearest of some words.

use std::alloc::{AllocError, Global};
use strsim::osa_distance;

/// How many letters may be wrong, left out, added or swapped in a word that is taken for another: one in three.
fn tolerance(word: &str) -> usize {
    (word.len() / 3).max(1)
}

/// The first of the words that has the fewest letters to change, where they are few: one in three of the word's at most, or one.
pub fn nearest<'w>(
    alloc: Global,
    word: &str,
    words: &[&'w str],
) -> Result<Option<&'w str>, AllocError> {
    let mut best = None;
    let mut least = tolerance(word).saturating_add(1);
    for other in words {
        let distance = osa_distance(alloc, word, other)?;
        if distance < least {
            least = distance;
            best = Some(*other);
        }
    }
    Ok(best)
}
