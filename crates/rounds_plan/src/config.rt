//! Configurations: the states of all nodes after a round.
ghost use Rattle.std.specs.Prelude.{◌≡◌, ◌≤◌, length, vec_len, All, slice_get};
ghost use Rattle.rounds_plan.specs.Configs.{IsPlain, IsConfiguration, most_rounds};
ghost use Rattle.rounds_plan.specs.Lockstep.{state_in};

use crate::plan::Plan;
use rule_check::State;
use std::marker::Model;

/// The greatest round that a plan starts from, that is computed and that a report has: 1,000,000,000, counted from
/// round 0.
pub const MOST_ROUNDS: u32 = 1_000_000_000;

/// The states of all nodes of a plan after a round.
#[derive(Drop)]
pub struct Config {
    rounds: u32,
    fields: u32,
    states: Vec<State>,
}

impl Model for Config {
    ghost use Rattle.rounds_plan.specs.Configs.{Configuration, IsConfiguration};

    ghost Value = { Configuration };

    ghost view = { λ c. record { rounds = c.rounds; fields = c.fields; states = c.states.items } };

    ghost invariant = { λ c. IsConfiguration (record { rounds = c.rounds; fields = c.fields; states = c.states.items }) };
}

impl Config {
    /// These states at this round, one for each node of the plan. The round counts from round 0, and words of
    /// fields that the program does not declare are 0.
    pub fn of(plan: &Plan, rounds: u32, states: Vec<State>) -> Config
        requires nodes { vec_len states ≡ length plan.now.network }
        requires plain { All (IsPlain (length plan.now.program.fields)) states.items }
        requires round { rounds ≤ most_rounds }
        ensures parts { result ≡ record { rounds = rounds; fields = length plan.now.program.fields; states = states.items } }
    {
        let fields = plan.program().field_count();
        // For the proof: how many nodes a network may have.
        let _nodes = plan.network().nodes();
        Config {
            rounds,
            fields,
            states,
        }
    }

    /// The round, counted from round 0.
    pub fn rounds(&self) -> u32
        ensures round { result ≡ self.now.rounds }
        ensures whole { IsConfiguration self.now }
    {
        self.rounds
    }

    /// How many nodes there are.
    pub fn nodes(&self) -> u32
        ensures count { result ≡ length self.now.states }
    {
        self.states.len() as u32
    }

    /// How many fields the program has.
    pub fn fields(&self) -> u32
        ensures count { result ≡ self.now.fields }
    {
        self.fields
    }

    /// The state of a node, or none where there is no such node.
    pub fn state(&self, node: u32) -> Option<State>
        ensures state { result ≡ slice_get self.now.states node }
    {
        self.states.get(node as usize).copied()
    }

    /// The states by rising number of the node.
    pub fn states(&self) -> &[State]
        ensures states { result.now ≡ self.now.states }
    {
        self.states.as_slice()
    }
}

/// The state of a node; 0 in each word where there is no such node.
pub fn state_at(states: &[State], node: u32) -> State
    ensures exact { result ≡ state_in states.now node }
{
    match states.get(node as usize) {
        Some(state) => *state,
        None => State { words: [0; 8] },
    }
}
