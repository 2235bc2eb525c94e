//! The parts of a start.
ghost use Rattle.std.specs.Prelude.{◌≡◌, ◌≤◌, ◌==◌, not, length, IfErr, IfOk, OnOk, Ok, Err};
ghost use Rattle.std.specs.List.{list_any};
ghost use Rattle.rounds_plan.specs.Starts.{IsStart, is_stray, start_of};

use crate::config::MOST_ROUNDS;
use crate::fault::StartFault;
use crate::plan::Plan;
use link_net::NetRows;
use rule_check::{Program, State};

/// How nodes open: with this phase and these states, at this round.
#[derive(Clone, Copy)]
pub struct Opening<'a> {
    pub phase: u8,
    pub states: &'a [State],
    pub round: u32,
}

/// Whether a word is not 0.
fn is_any_set(words: &[u32]) -> bool
    ensures exact { result ≡ list_any (λ w. not (w == 0)) words.now }
{
    words.iter().any(|word| *word != 0)
}

/// Whether a word after the fields is not 0.
fn is_stray(fields: u32, state: &State) -> bool
    requires few { fields ≤ 8 }
    ensures exact { result ≡ is_stray fields state.now }
{
    is_any_set(&state.words[fields as usize..])
}

/// Whether a word after the fields of some state is not 0.
fn have_stray(fields: u32, states: &[State]) -> bool
    requires few { fields ≤ 8 }
    ensures exact { result ≡ list_any (is_stray fields) states.now }
{
    states.iter().any(|state| is_stray(fields, state))
}

/// Whether the parts make a start, or the first fault that they have.
pub(crate) fn check_parts(
    program: &Program,
    rows: &NetRows<'_>,
    opening: &[State],
    start: u32,
) -> Result<(), StartFault>
    ensures ok { OnOk result (start_of program.now rows.now opening.now start ≡ Ok (record { program = program.now; network = rows.now; phase = 0; opening = opening.now; start = start })) }
    ensures whole { OnOk result (IsStart (record { program = program.now; network = rows.now; phase = 0; opening = opening.now; start = start })) }
    ensures refused { IfErr result (λ fault. start_of program.now rows.now opening.now start ≡ Err fault) }
{
    let fields = program.field_count();
    let nodes = rows.nodes() as usize;
    if nodes == 0 {
        return Err(StartFault::NoNodes);
    }
    if opening.len() != nodes {
        return Err(StartFault::StateCount);
    }
    if have_stray(fields, opening) {
        return Err(StartFault::NotPlain);
    }
    if start > MOST_ROUNDS {
        return Err(StartFault::TooManyRounds);
    }
    Ok(())
}

/// A plan whose nodes begin with other states; all else stays. `StateCount` comes where there are more or fewer states than
/// nodes, and else `NotPlain`.
pub fn begun_with(plan: Plan, states: Vec<State>) -> Result<Plan, StartFault>
    ensures plan { IfOk result (λ new. new ≡ record { program = plan.program; network = plan.network; phase = plan.phase; opening = states.items; start = plan.start }) }
    ensures refused { IfErr result (λ fault. start_of plan.program plan.network states.items plan.start ≡ Err fault) }
{
    check_parts(
        plan.program(),
        &plan.network().rows(),
        &states,
        plan.start(),
    )?;
    Ok(plan.with_openings(states))
}
