//! The words after one round, or after each of a list of rounds.
ghost use Rattle.std.specs.Prelude.{◌≡◌, ◌≢◌, ◌*◌, ◌+◌, ◌≤◌, ◌++◌, length, IfOk, IfErr, OnErr, OnOk, MatchResult};
ghost use Rattle.rounds_plan.specs.Configs.{most_rounds};
ghost use Rattle.rounds_plan.specs.Lockstep.{lockstep_config, rounds_of};
ghost use Rattle.app_calls.specs.declared.fault.Fault.TheVariants as fault;
ghost use Rattle.app_calls.specs.Answers.{HasPlanOf, HasRoundWords, HaveRoundWords};
ghost use Rattle.app_calls.specs.Refusals.{AreNoRounds, HasNoPlanOf, IsNoRound, word_count};
ghost use Rattle.app_calls.specs.Words.{entry_fault, list_fault, words_at, words_of};

use crate::fault::Fault;
use crate::plans::{PlanTexts, plan_of, put_shape, word_count};
use crate::words::{add_config, put_words};
use lockstep::lockstep;
use rounds_plan::{MOST_ROUNDS, Plan, RoundFault};
use rounds_walk::{PlanRef, RoundWalk, Start};
use std::alloc::{AllocError, Global};

/// Why the plan does not have a round, if it does not.
fn check_round(plan: &Plan, round: u32) -> Result<(), RoundFault>
    ensures there { MatchResult result (λ _. rounds_of plan.now round ≡ Ok (lockstep_config plan.now round)) (λ f. rounds_of plan.now round ≡ Err f) }
    ensures within { OnOk result ((plan.now.start ≤ round) × (round ≤ most_rounds)) }
{
    if round > MOST_ROUNDS {
        return Err(RoundFault::TooManyRounds);
    }
    if round < plan.start() {
        return Err(RoundFault::RoundsBelowStart);
    }
    Ok(())
}

/// The words after a round that the plan has.
fn round_words(alloc: Global, plan: &Plan, round: u32) -> Result<Vec<u32>, RoundFault>
    requires there { rounds_of plan.now round ≡ Ok (lockstep_config plan.now round) }
    ensures words { IfOk result (λ v. v.items ≡ words_of (lockstep_config plan.now round)) }
    ensures count { IfOk result (λ v. length v.items ≡ word_count plan.now) }
    ensures memory { IfErr result (λ f. f ≡ RoundFault.Memory) }
{
    let config = lockstep(alloc, plan, round)?;
    let mut words = Vec::new(alloc);
    add_config(&mut words, &config)?;
    Ok(words)
}

/// Writes the words after a round of a plan, and its shape; where there is too little room, its shape alone.
fn put_round(
    alloc: Global,
    plan: &Plan,
    round: u32,
    words: &mut [u32],
    nodes: &mut u32,
    fields: &mut u32,
) -> Result<(), Fault>
    ensures written { OnOk result (HasRoundWords plan.now round words.old words.new nodes.new fields.new) }
    ensures kept { OnErr result (words.new ≡ words.old) }
    ensures sized { IfErr result (λ f. f ≢ fault.Room → (nodes.new ≡ nodes.old) × (fields.new ≡ fields.old)) }
    ensures refused { IfErr result (IsNoRound round (length words.old) nodes.new fields.new plan.now) }
{
    check_round(plan, round)?;
    if words.len() < word_count(plan) {
        put_shape(plan, nodes, fields);
        return Err(Fault::Room);
    }
    let found = round_words(alloc, plan, round)?;
    put_words(&found, words);
    put_shape(plan, nodes, fields);
    Ok(())
}

/// Writes the words after a round of the plan of the texts, and its shape; where there is too little room, its shape alone.
pub fn write_round(
    alloc: Global,
    texts: &PlanTexts<'_>,
    round: u32,
    words: &mut [u32],
    nodes: &mut u32,
    fields: &mut u32,
) -> Result<(), Fault>
    ensures written { OnOk result (HasPlanOf texts.now (λ p. HasRoundWords p round words.old words.new nodes.new fields.new)) }
    ensures kept { OnErr result (words.new ≡ words.old) }
    ensures sized { IfErr result (λ f. f ≢ fault.Room → (nodes.new ≡ nodes.old) × (fields.new ≡ fields.old)) }
    ensures refused { IfErr result (HasNoPlanOf texts.now (IsNoRound round (length words.old) nodes.new fields.new)) }
{
    let plan = plan_of(alloc, texts)?;
    put_round(alloc, &plan, round, words, nodes, fields)
}

/// The least round that may follow one of a list that may not lie below `least`.
fn next_least(plan: &Plan, least: u32, round: u32) -> Result<u32, Fault>
    ensures there { MatchResult result (λ next. (entry_fault plan.now least round ≡ None) × (next ≡ round + 1)) (λ f. entry_fault plan.now least round ≡ Some f) }
    ensures within { OnOk result ((plan.now.start ≤ round) × (round ≤ most_rounds)) }
{
    check_round(plan, round)?;
    if round < least {
        return Err(Fault::NotRising);
    }
    Ok(round + 1)
}

/// Why a list of rounds is refused, if it is.
fn check_rounds(plan: &Plan, rounds: &[u32]) -> Result<(), Fault>
    ensures there { MatchResult result (λ _. list_fault plan.now plan.now.start rounds.now ≡ None) (λ f. list_fault plan.now plan.now.start rounds.now ≡ Some f) }
{
    let mut least = plan.start();
    for round in rounds {
        least = next_least(plan, least, *round)?;
    }
    Ok(())
}

/// Goes on to a round, and appends its words.
fn add_round(
    alloc: Global,
    words: &mut Vec<u32>,
    plan: &Plan,
    walk: &mut RoundWalk<'_>,
    round: u32,
) -> Result<(), AllocError>
    requires plan { walk.old.plan ≡ plan.now }
    requires late { walk.old.round ≤ round }
    requires few { round ≤ most_rounds }
    ensures added { OnOk result (words.new.items ≡ words.old.items ++ words_of (lockstep_config walk.old.plan round)) }
    ensures count { OnOk result (length (words_of (lockstep_config walk.old.plan round)) ≡ word_count walk.old.plan) }
    ensures there { OnOk result (walk.new ≡ record { plan = walk.old.plan; round = round }) }
{
    walk.go_to(round);
    let config = walk.config(alloc, plan)?;
    add_config(words, &config)?;
    Ok(())
}

/// The words after each of the rounds, in one pass over them.
fn rounds_words(alloc: Global, plan: &Plan, rounds: &[u32]) -> Result<Vec<u32>, AllocError>
    requires there { list_fault plan.now plan.now.start rounds.now ≡ None }
    ensures words { IfOk result (λ v. v.items ≡ words_at plan.now rounds.now) }
    ensures count { IfOk result (λ v. length v.items ≡ length rounds.now * word_count plan.now) }
{
    let start = Start::new(alloc, &PlanRef::of_plan(plan))?;
    let mut walk = start.walk(alloc)?;
    let mut words = Vec::new(alloc);
    for round in rounds {
        add_round(alloc, &mut words, plan, &mut walk, *round)?;
    }
    Ok(words)
}

/// Writes the words after each of the rounds of a plan, and its shape; where there is too little room, its shape alone.
fn put_rounds(
    alloc: Global,
    plan: &Plan,
    rounds: &[u32],
    words: &mut [u32],
    nodes: &mut u32,
    fields: &mut u32,
) -> Result<(), Fault>
    ensures written { OnOk result (HaveRoundWords plan.now rounds.now words.old words.new nodes.new fields.new) }
    ensures kept { OnErr result (words.new ≡ words.old) }
    ensures sized { IfErr result (λ f. f ≢ fault.Room → (nodes.new ≡ nodes.old) × (fields.new ≡ fields.old)) }
    ensures refused { IfErr result (AreNoRounds rounds.now (length words.old) nodes.new fields.new plan.now) }
{
    check_rounds(plan, rounds)?;
    if words.len() < rounds.len().saturating_mul(word_count(plan)) {
        put_shape(plan, nodes, fields);
        return Err(Fault::Room);
    }
    let found = rounds_words(alloc, plan, rounds)?;
    put_words(&found, words);
    put_shape(plan, nodes, fields);
    Ok(())
}

/// Writes the words after each of the rounds of the plan of the texts, and its shape; where there is too little room, its
/// shape alone.
pub fn write_rounds(
    alloc: Global,
    texts: &PlanTexts<'_>,
    rounds: &[u32],
    words: &mut [u32],
    nodes: &mut u32,
    fields: &mut u32,
) -> Result<(), Fault>
    ensures written { OnOk result (HasPlanOf texts.now (λ p. HaveRoundWords p rounds.now words.old words.new nodes.new fields.new)) }
    ensures kept { OnErr result (words.new ≡ words.old) }
    ensures sized { IfErr result (λ f. f ≢ fault.Room → (nodes.new ≡ nodes.old) × (fields.new ≡ fields.old)) }
    ensures refused { IfErr result (HasNoPlanOf texts.now (AreNoRounds rounds.now (length words.old) nodes.new fields.new)) }
{
    let plan = plan_of(alloc, texts)?;
    put_rounds(alloc, &plan, rounds, words, nodes, fields)
}
