//! The states of all nodes after a round, however many nodes there are.
ghost use Rattle.std.specs.Prelude.{◌≡◌, ◌≤◌, length, vec_len, All};
ghost use Rattle.link_net.specs.Limits.{most_rows};
ghost use Rattle.rounds_plan.specs.Configs.{IsPlain, AreRoundStates, most_rounds};

use rule_check::{Program, State};
use std::marker::Model;

/// The states of all nodes of a network of any size after a round. A contract sees them as a configuration.
#[derive(Drop)]
pub struct RoundStates {
    rounds: u32,
    fields: u32,
    states: Vec<State>,
}

impl Model for RoundStates {
    ghost use Rattle.rounds_plan.specs.Configs.{Configuration, AreRoundStates};

    ghost Value = { Configuration };

    ghost view = { λ c. record { rounds = c.rounds; fields = c.fields; states = c.states.items } };

    ghost invariant = { λ c. AreRoundStates (record { rounds = c.rounds; fields = c.fields; states = c.states.items }) };
}

impl RoundStates {
    /// These states at this round, one for each node. The round counts from round 0, and words of fields that the program
    /// does not declare are 0.
    pub fn of(program: &Program, rounds: u32, states: Vec<State>) -> RoundStates
        requires few { vec_len states ≤ most_rows }
        requires plain { All (IsPlain (length program.now.fields)) states.items }
        requires round { rounds ≤ most_rounds }
        ensures parts { result ≡ record { rounds = rounds; fields = length program.now.fields; states = states.items } }
    {
        let fields = program.field_count();
        RoundStates {
            rounds,
            fields,
            states,
        }
    }

    /// The round, counted from round 0.
    pub fn rounds(&self) -> u32
        ensures round { result ≡ self.now.rounds }
        ensures whole { AreRoundStates self.now }
    {
        self.rounds
    }

    /// The states by rising number of the node.
    pub fn states(&self) -> &[State]
        ensures states { result.now ≡ self.now.states }
    {
        self.states.as_slice()
    }

    /// The states by rising number of the node, handed over.
    pub fn into_states(self) -> Vec<State>
        ensures states { result.items ≡ self.states }
    {
        self.states
    }
}
