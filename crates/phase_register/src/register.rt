//! Registers, and what a neighbour sees of them.
ghost use Rattle.std.specs.Prelude.{◌≡◌, ℕ, ◌≤◌, ◌+◌, ◌%◌};
ghost use Rattle.phase_register.specs.Looks.{look_by_phases, look_by_counts, opening_register, published};

use crate::phase::Phase;
use rule_check::State;
use std::marker::Model;

/// What a node sees of a neighbour's register.
#[derive(Clone, Copy, Debug, PartialEq, Eq)]
pub enum Look {
    /// The neighbour is one move behind.
    Behind,
    /// The neighbour has moved as often: its current state.
    Level(State),
    /// The neighbour is one move ahead: its state before that move.
    Ahead(State),
}

/// What a node shows its neighbours: its phase, its current state, and its state before its last move.
#[derive(Clone, Copy, Debug, PartialEq, Eq)]
pub struct Register {
    phase: Phase,
    current: State,
    previous: State,
}

impl Model for Register {
    ghost use Rattle.phase_register.specs.Looks.{RegisterView};

    ghost Value = { RegisterView };

    ghost view = { λ r. record { phase = r.phase; current = r.current; previous = r.previous } };

    ghost inverse = { λ r. record { phase = r.phase; current = r.current; previous = r.previous } };
}

impl Register {
    /// The register of a node that has not moved yet; before its first move its previous state is its current one.
    pub fn opening(phase: Phase, state: State) -> Register
        ensures register { result ≡ opening_register phase state }
    {
        Register {
            phase,
            current: state,
            previous: state,
        }
    }

    /// The phase.
    pub fn phase(&self) -> Phase
        ensures phase { result ≡ self.now.phase }
    {
        self.phase
    }

    /// The current state.
    pub fn now(&self) -> State
        ensures state { result ≡ self.now.current }
    {
        self.current
    }

    /// The move to a state: the current state becomes the previous one, and the phase goes one step on.
    pub fn publish(&mut self, state: State)
        ensures moved { self.new ≡ published self.old state }
    {
        *self = Register {
            phase: self.phase.next(),
            current: state,
            previous: self.current,
        };
    }

    /// What a node with the phase `own` sees of this register.
    pub fn seen_from(&self, own: Phase) -> Look
        ensures by_phases { result ≡ look_by_phases own self.now }
        ensures by_counts { (opening mine theirs : ℕ) → own ≡ (opening + mine) % 3 → self.now.phase ≡ (opening + theirs) % 3
            → mine ≤ theirs + 1 → theirs ≤ mine + 1 → result ≡ look_by_counts mine theirs self.now }
    {
        if self.phase == own {
            Look::Level(self.current)
        } else if self.phase == own.next() {
            Look::Ahead(self.previous)
        } else {
            Look::Behind
        }
    }
}
