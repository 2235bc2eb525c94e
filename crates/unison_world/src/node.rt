//! Nodes.
ghost use Rattle.std.specs.Prelude.{◌≡◌, ℕ, ◌<◌, List, length};
ghost use Rattle.rule_check.specs.declared.state.Near.{Near};
ghost use Rattle.rule_check.specs.Value.{here_at, next_state};
ghost use Rattle.rule_check.specs.Gathering.{sums_at, finished};
ghost use Rattle.unison_world.specs.Pictures.{moved_node, seat_of};

use phase_register::Register;
use rule_check::{Program, State};
use unison_node::{Desk, Seat};

/// A node: how often it has moved, what it shows, and what it has read since its last move.
#[derive(Drop)]
pub struct Node {
    pub moves: u32,
    pub register: Register,
    pub desk: Desk,
}

impl Node {
    /// What the node of this number knows of itself.
    pub fn seat(&self, id: u32) -> Seat
        ensures seat { result ≡ seat_of id self.now }
    {
        Seat {
            id,
            phase: self.register.phase(),
            own: self.register.now(),
            round: self.moves,
        }
    }

    /// The next state of the node of this number, by the sums on its desk.
    pub fn next(&self, program: &Program, id: u32) -> State
        ensures completes { (nears : List Near) → length nears ≡ length self.now.desk.marks
            → self.now.desk.sums ≡ sums_at program.now (here_at program.now self.now.moves id (length self.now.desk.marks) self.now.register.current nears)
            → result ≡ next_state program.now self.now.moves id self.now.register.current nears }
    {
        let degree = self.desk.degree();
        let sums = self.desk.sums();
        program.finish(id, degree, self.register.now(), self.moves, &sums)
    }

    /// A move to a state.
    pub fn advance(&mut self, program: &Program, state: State)
        requires below { self.old.moves < 1000000000 }
        ensures moved { self.new ≡ moved_node program.now self.old state }
    {
        self.register.publish(state);
        self.moves += 1;
        self.desk.clear(program);
    }
}
