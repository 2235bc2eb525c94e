//! What changes from frame to frame.
ghost use Rattle.std.specs.Prelude.{◌≡◌, ◌≤◌, ◌++◌, ◌+◌, ◌*◌, IfOk, OnOk, length, slice_index};
ghost use Rattle.run_picture.specs.Moving.{change_at, changes_of, classes_of, most_frames};

use crate::colour::class_of;
use crate::film::Film;
use std::alloc::{AllocError, Global};

/// A frame in which a cell has another colour than in the one before, and the number of this colour.
#[derive(Clone, Copy)]
pub(crate) struct Change {
    pub(crate) frame: u32,
    pub(crate) class: usize,
}

/// The value of a node in a frame; 0 past the last.
fn value_in(film: &Film<'_>, frame: u32, node: u32) -> u32
    ensures { result ≡ slice_index film.now.values.now (frame * film.now.nodes + node) }
{
    let place = frame as usize * film.nodes as usize + node as usize;
    film.values.get(place).copied().unwrap_or(0)
}

/// The numbers of a node's colours, frame by frame.
pub(crate) fn classes_of(
    alloc: Global,
    film: &Film<'_>,
    node: u32,
) -> Result<Vec<usize>, AllocError>
    ensures classes { IfOk result (λ v. v.items ≡ classes_of film.now.key.now film.now.values.now film.now.nodes film.now.pace.frames node) }
{
    let mut classes = Vec::new(alloc);
    for frame in 0..film.pace.frames {
        classes.push(class_of(film.key, value_in(film, frame, node)))?;
    }
    Ok(classes)
}

/// Puts the change to a frame from the one before, where there is one.
fn put_change(
    changes: &mut Vec<Change>,
    class: usize,
    frame: u32,
    next: usize,
) -> Result<(), AllocError>
    ensures changes { OnOk result (changes.new.items ≡ changes.old.items ++ change_at class frame next) }
{
    if next != class {
        changes.push(Change { frame, class: next })?;
    }
    Ok(())
}

/// The changes of a cell that has these colours, frame by frame.
pub(crate) fn changes_of(alloc: Global, classes: &[usize]) -> Result<Vec<Change>, AllocError>
    requires few { length classes.now ≤ most_frames }
    ensures changes { IfOk result (λ v. v.items ≡ changes_of classes.now) }
{
    let mut changes = Vec::new(alloc);
    let mut class = classes.first().copied().unwrap_or(0);
    for (frame, next) in classes.iter().enumerate() {
        put_change(&mut changes, class, frame as u32, *next)?;
        class = *next;
    }
    Ok(changes)
}
