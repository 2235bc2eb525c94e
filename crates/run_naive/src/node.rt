//! Nodes.
ghost use Rattle.std.specs.Prelude.{◌≡◌, ◌<◌, ◌≤◌, ◌++◌, ◌∷◌, [], length, OnOk};
ghost use Rattle.run_naive.specs.Naive.{moved, with_copy};
ghost use Rattle.run_naive.specs.Keeping.{made_by, shown};

use rule_check::{Near, Program, State};
use std::alloc::AllocError;

/// A move of a node: the number of the step, counted from 1, and the state to which it moved.
#[derive(Clone, Copy)]
pub(crate) struct Move {
    pub(crate) step: usize,
    pub(crate) state: State,
}

/// A node that does not wait.
#[derive(Drop)]
pub(crate) struct Node {
    /// How often it has moved, the rounds before the plan's start included.
    pub(crate) moves: u32,
    pub(crate) state: State,
    /// At each slot the neighbour, with a copy of the state that was read there last.
    pub(crate) desk: Vec<Near>,
    /// Its moves since the plan's start, in order.
    pub(crate) past: Vec<Move>,
}

impl Node {
    /// Puts a copy on the desk, where it has this slot.
    pub(crate) fn take(&mut self, slot: u32, near: Near)
        ensures copy { shown self.new ≡ with_copy slot near (shown self.old) }
        ensures past { self.new.past.items ≡ self.old.past.items }
    {
        let slot = slot as usize;
        if slot < self.desk.len() {
            self.desk[slot] = near;
        }
    }

    /// Moves the node of this number, in the step of this number.
    pub(crate) fn advance(
        &mut self,
        program: &Program,
        id: u32,
        step: usize,
    ) -> Result<(), AllocError>
        requires few { length self.old.desk.items ≤ 4096 }
        requires below { self.old.moves < 1000000000 }
        ensures moved { OnOk result (shown self.new ≡ moved program.now id (shown self.old)) }
        ensures past { OnOk result (self.new.past.items ≡ self.old.past.items ++ made_by program.now id step (shown self.old) ∷ []) }
    {
        let state = program.next(id, self.state, self.moves, self.desk.as_slice());
        self.past.push(Move { step, state })?;
        self.state = state;
        self.moves += 1;
        Ok(())
    }
}
