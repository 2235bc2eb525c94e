//! Desks.
ghost use Rattle.std.specs.Prelude.{◌≡◌, ℕ, ◌<◌, ◌++◌, List, ◌∷◌, length, IfOk, Some, IsTrue, ◌↔◌};
ghost use Rattle.rule_check.specs.declared.state.State.{State};
ghost use Rattle.rule_check.specs.declared.state.Near.{Near};
ghost use Rattle.phase_register.specs.Looks.{look_by_phases};
ghost use Rattle.unison_node.specs.declared.desk.Offer.TheVariants.{Taken};
ghost use Rattle.unison_node.specs.Desks.{empty, has_mark, IsReady, cleared, sums_over, taken_in};
ghost use Rattle.unison_node.specs.Offers.{answer_to, after_offer, given};

use phase_register::{Look, Phase, Register};
use rule_check::{Near, Program, State, Sums};
use std::alloc::{AllocError, Global};
use std::marker::Model;

/// What a desk's node knows of itself: its number, its phase, its own state, and its round, which counts from round 0.
#[derive(Clone, Copy, Debug, PartialEq, Eq)]
pub struct Seat {
    pub id: u32,
    pub phase: Phase,
    pub own: State,
    pub round: u32,
}

/// What a desk answers to a register that it is offered.
#[derive(Clone, Copy, Debug, PartialEq, Eq)]
pub enum Offer {
    /// The slot is marked now, and the neighbour's state is in the sums.
    Taken,
    /// The register is one move behind the node.
    Behind,
    /// The slot was marked before.
    Already,
    /// The desk has no such slot.
    NoSlot,
}

/// For each slot of a node whether the neighbour there was read, and the aggregates over those that were.
#[derive(Drop)]
pub struct Desk {
    marks: Vec<bool>,
    sums: Sums,
}

impl Model for Desk {
    ghost use Rattle.std.specs.Prelude.{length, ◌<◌, ◌^◌};
    ghost use Rattle.unison_node.specs.Desks.{DeskView};

    ghost Value = { DeskView };

    ghost view = { λ d. record { marks = d.marks.items; sums = d.sums } };

    ghost invariant = { λ d. length d.marks.items < 2 ^ 32 };
}

impl Desk {
    /// A desk of as many slots, none marked, for a program: its sums are the aggregates over no neighbour.
    pub fn new(alloc: Global, program: &Program, degree: u32) -> Result<Desk, AllocError>
        ensures unmarked { IfOk result (λ desk. desk ≡ empty program.now degree) }
    {
        Ok(Desk {
            marks: vec![in alloc; false; degree as usize]?,
            sums: program.start(),
        })
    }

    /// Offers a neighbour's register at a slot: the neighbour's number, the weight of the link to it and the state
    /// that the node sees are taken into the sums, and the slot is marked. It isn't where the desk has no such slot,
    /// else where the slot is marked, else where the register is behind; then nothing changes.
    pub fn offer(
        &mut self,
        program: &Program,
        seat: Seat,
        slot: u32,
        nid: u32,
        weight: u32,
        register: &Register,
    ) -> Offer
        ensures answer { result ≡ answer_to self.old slot (look_by_phases seat.phase register.now) }
        ensures after { self.new ≡ after_offer program.now seat slot nid weight self.old (look_by_phases seat.phase register.now) }
        ensures sums { (state : State) (front back : List Near) → result ≡ Taken → given (look_by_phases seat.phase register.now) ≡ Some state
            → length (front ++ back) < 4294967295 → self.old.sums ≡ sums_over program.now seat (length self.old.marks) (front ++ back)
            → self.new.sums ≡ sums_over program.now seat (length self.old.marks) (front ++ record { id = nid; weight = weight; state = state } ∷ back) }
    {
        let place = slot as usize;
        if place >= self.marks.len() {
            return Offer::NoSlot;
        }
        if self.marks[place] {
            return Offer::Already;
        }
        match register.seen_from(seat.phase) {
            Look::Behind => Offer::Behind,
            Look::Level(state) | Look::Ahead(state) => {
                let degree = self.degree();
                let near = Near {
                    id: nid,
                    weight,
                    state,
                };
                program.take(&mut self.sums, seat.id, degree, seat.own, seat.round, &near);
                self.marks[place] = true;
                Offer::Taken
            }
        }
    }

    /// Whether a slot is marked; a slot that the desk doesn't have is not.
    pub fn has(&self, slot: u32) -> bool
        ensures mark { result ≡ has_mark self.now slot }
    {
        match self.marks.get(slot as usize) {
            Some(mark) => *mark,
            None => false,
        }
    }

    /// The aggregates over the neighbours at the marked slots.
    pub fn sums(&self) -> Sums
        ensures sums { result ≡ self.now.sums }
    {
        self.sums
    }

    /// How many slots there are.
    pub fn degree(&self) -> u32
        ensures count { result ≡ length self.now.marks }
    {
        self.marks.len() as u32
    }

    /// Whether every slot is marked.
    pub fn ready(&self) -> bool
        ensures all { IsTrue result ↔ IsReady self.now }
    {
        self.marks.iter().all(|mark| *mark)
    }

    /// Unmarks all slots, and sets the sums to the aggregates over no neighbour.
    pub fn clear(&mut self, program: &Program)
        ensures unmarked { self.new ≡ cleared program.now self.old }
    {
        self.marks.fill(false);
        self.sums = program.start();
    }
}
