//! Unison for C: from texts to answers in the caller's memory, with no state and no threads. Each call answers 0 where it was
//! done, else the number of the first fault on the way (`app_calls`). `library/unison.h` declares them.
#![tactic(auto)]

ghost use Rattle.std.specs.Prelude.{◌≡◌, ◌≢◌, ◌≤◌, ◌<◌, length, true};
ghost use Rattle.app_jobs.specs.FirstFault.{IsUnrefused};
ghost use Rattle.app_calls.specs.Answers.{HasPlanWith, HasReplay, HasRoundWords, HasSettling, HaveRoundWords, IsSpelled, IsText, report_in, told_by};
ghost use Rattle.app_calls.specs.Jobs.{HasJobWith, IsFirstNumber};
ghost use Rattle.app_calls.specs.Numbers.{IsNumberOf};
ghost use Rattle.app_calls.specs.Refusals.{AreNoRounds, IsNoReplay, IsNoRound, IsNoSettling, IsRefusedPlan, IsUnspelled, IsUntold, is_job};
ghost use Rattle.large_net.specs.Large.{AreLaidOut};
ghost use Rattle.app_calls.specs.CountAnswers.{HaveLargeCounts, IsRefusedCounts};
ghost use Rattle.app_calls.specs.LargeAnswers.{HasLargeRounds, IsRefusedRounds};
ghost use Rattle.app_calls.specs.PartAnswers.{HasPartRound, IsRefusedPart};
ghost use Rattle.app_calls.specs.WatchAnswers.{HaveLargeRounds, IsRefusedWatch};
ghost use Rattle.app_calls.specs.Lists.{given_weights, lists_fault};
ghost use Rattle.app_calls.specs.ListNumbers.{IsLargeNumberOf, IsToldLists};
ghost use Rattle.app_calls.specs.ModelAnswers.{IsExpansion, IsUnexpanded};
ghost use Rattle.app_calls.specs.ModelNumbers.{IsModelNumberOf};

use app_calls::{
    CountedRounds, Lists, ListsStart, Part, PlanTexts, ReplaySizes, ReplayTexts, check_lists,
    reason_for, write_expansion, write_large_counts, write_large_rounds, write_large_watch,
    write_part_round, write_reason, write_replay, write_round, write_rounds, write_settling,
    write_spelling,
};
use std::alloc::Global;

/// The number of the fault of too little room.
const ROOM: u32 = 2;

/// The number of the fault of a wrong number of words.
const WORD_COUNT: u32 = 149;

/// The number of the fault of a field that the program lacks.
const NO_FIELD: u32 = 152;

/// The number of the fault of too many values.
const TOO_MANY_VALUES: u32 = 153;

/// Writes the canonical spelling of a program to the front of the text, and how long it is; where there is too little room,
/// how long it is alone. A program of more than 65,536 bytes takes no memory.
#[unsafe(no_mangle)]
pub extern "C" fn unison_check(
    alloc: Global,
    program: &[u8],
    text: &mut [u8],
    text_len: &mut usize,
) -> u32
    ensures written { result ≡ 0 → IsSpelled program.now text.old text.new text_len.new }
    ensures kept { result ≢ 0 → text.new ≡ text.old }
    ensures sized { result ≢ 0 → result ≢ ROOM → text_len.new ≡ text_len.old }
    ensures refused { result ≢ 0 → IsNumberOf (IsUnspelled program.now (length text.old) text_len.new) result }
    ensures long { 65536 < length program.now → result ≡ 16 }
{
    match write_spelling(alloc, program, text, text_len) {
        Ok(()) => 0,
        Err(fault) => fault.number(),
    }
}

/// Writes the text of the program that a model is expanded to, where constants are set, to the front of the text, and how long
/// it is; where there is too little room, how long it is alone. The names of the constants stand in a text, an LF after each,
/// and their values in a list in the same order. A model of more than 65,536 bytes takes no memory.
#[unsafe(no_mangle)]
pub extern "C" fn unison_expand(
    alloc: Global,
    model: &[u8],
    names: &[u8],
    values: &[u32],
    text: &mut [u8],
    text_len: &mut usize,
) -> u32
    ensures written { result ≡ 0 → IsExpansion model.now names.now values.now text.old text.new text_len.new }
    ensures kept { result ≢ 0 → text.new ≡ text.old }
    ensures sized { result ≢ 0 → result ≢ ROOM → text_len.new ≡ text_len.old }
    ensures refused { result ≢ 0 → IsModelNumberOf (IsUnexpanded model.now names.now values.now (length text.old) text_len.new) result }
    ensures long { 65536 < length model.now → result ≡ 160 }
{
    match write_expansion(alloc, model, names, values, text, text_len) {
        Ok(()) => 0,
        Err(fault) => fault.number(),
    }
}

/// Writes the words of all fields of all nodes after a round, node by node, to the front of the words, and how many nodes and
/// fields there are; where there is too little room, these numbers alone, and then no round is computed.
#[unsafe(no_mangle)]
pub extern "C" fn unison_lockstep(
    alloc: Global,
    program: &[u8],
    network: &[u8],
    from: &[u8],
    round: u32,
    words: &mut [u32],
    nodes: &mut u32,
    fields: &mut u32,
) -> u32
    ensures written { result ≡ 0 → HasPlanWith program.now network.now from.now (λ p. HasRoundWords p round words.old words.new nodes.new fields.new) }
    ensures kept { result ≢ 0 → words.new ≡ words.old }
    ensures sized { result ≢ 0 → result ≢ ROOM → (nodes.new ≡ nodes.old) × (fields.new ≡ fields.old) }
    ensures refused { result ≢ 0 → IsNumberOf (IsRefusedPlan program.now network.now from.now (IsNoRound round (length words.old) nodes.new fields.new)) result }
{
    let texts = PlanTexts {
        program,
        network,
        from,
    };
    match write_round(alloc, &texts, round, words, nodes, fields) {
        Ok(()) => 0,
        Err(fault) => fault.number(),
    }
}

/// Writes the words after each of the rounds, of which each is above the one before it, one round after the other, to the
/// front of the words, and how many nodes and fields there are; where there is too little room, these numbers alone, and then
/// no round is computed. All is done in one pass over the rounds.
#[unsafe(no_mangle)]
pub extern "C" fn unison_watch(
    alloc: Global,
    program: &[u8],
    network: &[u8],
    from: &[u8],
    rounds: &[u32],
    words: &mut [u32],
    nodes: &mut u32,
    fields: &mut u32,
) -> u32
    ensures written { result ≡ 0 → HasPlanWith program.now network.now from.now (λ p. HaveRoundWords p rounds.now words.old words.new nodes.new fields.new) }
    ensures kept { result ≢ 0 → words.new ≡ words.old }
    ensures sized { result ≢ 0 → result ≢ ROOM → (nodes.new ≡ nodes.old) × (fields.new ≡ fields.old) }
    ensures refused { result ≢ 0 → IsNumberOf (IsRefusedPlan program.now network.now from.now (AreNoRounds rounds.now (length words.old) nodes.new fields.new)) result }
{
    let texts = PlanTexts {
        program,
        network,
        from,
    };
    match write_rounds(alloc, &texts, rounds, words, nodes, fields) {
        Ok(()) => 0,
        Err(fault) => fault.number(),
    }
}

/// Writes what becomes of the rounds up to a limit: the manner is 1 where they settle at the round, 2 where they repeat from
/// the round on, every so many rounds as the period says, and 3 where neither shows up to the round. Where there is no period
/// it is 0.
#[unsafe(no_mangle)]
pub extern "C" fn unison_settle(
    alloc: Global,
    program: &[u8],
    network: &[u8],
    from: &[u8],
    limit: u32,
    manner: &mut u32,
    round: &mut u32,
    period: &mut u32,
) -> u32
    ensures written { result ≡ 0 → HasPlanWith program.now network.now from.now (λ p. HasSettling p limit manner.new round.new period.new) }
    ensures kept { result ≢ 0 → (manner.new ≡ manner.old) × (round.new ≡ round.old) × (period.new ≡ period.old) }
    ensures refused { result ≢ 0 → IsNumberOf (IsRefusedPlan program.now network.now from.now (IsNoSettling limit)) result }
{
    let texts = PlanTexts {
        program,
        network,
        from,
    };
    match write_settling(alloc, &texts, limit, manner, round, period) {
        Ok(()) => 0,
        Err(fault) => fault.number(),
    }
}

/// Writes what stands there after the steps of a schedule: the replay report to the front of the report, how often each node
/// has moved to the front of the counts, and the words that the nodes show to the front of the words, node by node; and how long
/// the report is, and how many nodes and fields there are. Where there is too little room for one of the three, these numbers
/// alone.
#[unsafe(no_mangle)]
pub extern "C" fn unison_replay(
    alloc: Global,
    program: &[u8],
    network: &[u8],
    from: &[u8],
    schedule: &[u8],
    stop: u32,
    report: &mut [u8],
    report_len: &mut usize,
    counts: &mut [u32],
    words: &mut [u32],
    nodes: &mut u32,
    fields: &mut u32,
) -> u32
    ensures written { result ≡ 0 → HasPlanWith program.now network.now from.now (λ p. HasReplay p stop schedule.now (told_by report.old counts.old words.old) (told_by report.new counts.new words.new) report_len.new nodes.new fields.new) }
    ensures kept { result ≢ 0 → (report.new ≡ report.old) × (counts.new ≡ counts.old) × (words.new ≡ words.old) }
    ensures sized { result ≢ 0 → result ≢ ROOM → (report_len.new ≡ report_len.old) × (nodes.new ≡ nodes.old) × (fields.new ≡ fields.old) }
    ensures refused { result ≢ 0 → IsNumberOf (IsRefusedPlan program.now network.now from.now (IsNoReplay stop schedule.now (told_by report.old counts.old words.old) report_len.new nodes.new fields.new)) result }
{
    let plan = PlanTexts {
        program,
        network,
        from,
    };
    let replay = ReplayTexts {
        plan,
        schedule,
        stop,
    };
    let mut sizes = ReplaySizes {
        report: *report_len,
        nodes: *nodes,
        fields: *fields,
    };
    let done = write_replay(alloc, &replay, report, counts, words, &mut sizes);
    *report_len = sizes.report;
    *nodes = sizes.nodes;
    *fields = sizes.fields;
    match done {
        Ok(()) => 0,
        Err(fault) => fault.number(),
    }
}

/// Writes the number of the first fault with which a job on these texts would end, its round or stop being `number`, or 0 where
/// nothing refuses it; and what is told of it to the front of the text, and how long that is: why the job is not done, or that
/// nothing is wrong. Where there is too little room, how long it is alone. Job 1 is the spelling of the program, 2 the lockstep
/// rounds, 3 the replay.
#[unsafe(no_mangle)]
pub extern "C" fn unison_why(
    alloc: Global,
    job: u32,
    program: &[u8],
    network: &[u8],
    from: &[u8],
    schedule: &[u8],
    number: u32,
    fault: &mut u32,
    text: &mut [u8],
    text_len: &mut usize,
) -> u32
    ensures job { result ≡ 0 → is_job job ≡ true }
    ensures accepted { result ≡ 0 → fault.new ≡ 0 → HasJobWith job number (λ asked. IsUnrefused asked program.now network.now (report_in from.now) schedule.now) }
    ensures first { result ≡ 0 → fault.new ≢ 0 → HasJobWith job number (λ asked. IsFirstNumber asked program.now network.now (report_in from.now) schedule.now fault.new) }
    ensures named { result ≡ 0 → fault.new ≢ 0 → 16 ≤ fault.new }
    ensures written { result ≡ 0 → IsText text.old text.new text_len.new }
    ensures kept { result ≢ 0 → (fault.new ≡ fault.old) × (text.new ≡ text.old) }
    ensures sized { result ≢ 0 → result ≢ ROOM → text_len.new ≡ text_len.old }
    ensures refused { result ≢ 0 → IsNumberOf (IsUntold job (length text.old) text_len.new) result }
{
    let texts = PlanTexts {
        program,
        network,
        from,
    };
    let reason = match reason_for(alloc, job, &texts, schedule, number) {
        Ok(reason) => reason,
        Err(fault) => return fault.number(),
    };
    match write_reason(&reason, fault, text, text_len) {
        Ok(()) => 0,
        Err(fault) => fault.number(),
    }
}

/// Whether three lists are the rows of a network of any size: the neighbours of node u stand from offset u up to the next one;
/// each weight is 1 where there are none. Where they are not, the number of their first fault and its place: that in the list of
/// offsets or of neighbours, the node with too many neighbours, or how many nodes or weights there are. No memory is taken.
#[unsafe(no_mangle)]
pub extern "C" fn unison_large_check(
    offsets: &[usize],
    neighbours: &[u32],
    weights: &[u32],
    place: &mut usize,
) -> u32
    ensures rows { result ≡ 0 → AreLaidOut offsets.now neighbours.now (given_weights neighbours.now weights.now) }
    ensures kept { result ≡ 0 → place.new ≡ place.old }
    ensures refused { result ≢ 0 → IsToldLists (lists_fault offsets.now neighbours.now weights.now) result place.new }
{
    let lists = Lists {
        offsets,
        neighbours,
        weights,
    };
    match check_lists(&lists) {
        Ok(()) => 0,
        Err(fault) => {
            *place = fault.place() as usize;
            fault.number()
        }
    }
}

/// Writes the words of all fields of all nodes after a round, node by node, in place of those after an earlier round, the start,
/// on a network of any size, and how many fields there are; where there is not one word for each field of each node, how many
/// fields there are alone, and then no round is computed.
#[unsafe(no_mangle)]
pub extern "C" fn unison_large_rounds(
    alloc: Global,
    program: &[u8],
    offsets: &[usize],
    neighbours: &[u32],
    weights: &[u32],
    start: u32,
    round: u32,
    words: &mut [u32],
    fields: &mut u32,
) -> u32
    ensures written { result ≡ 0 → HasLargeRounds program.now offsets.now neighbours.now weights.now start round words.old words.new fields.new }
    ensures kept { result ≢ 0 → words.new ≡ words.old }
    ensures sized { result ≢ 0 → result ≢ WORD_COUNT → fields.new ≡ fields.old }
    ensures refused { result ≢ 0 → IsLargeNumberOf (IsRefusedRounds program.now offsets.now neighbours.now weights.now start round (length words.old) fields.new) result }
    ensures long { 65536 < length program.now → result ≡ 16 }
{
    let lists = Lists {
        offsets,
        neighbours,
        weights,
    };
    let origin = ListsStart {
        program,
        lists,
        start,
    };
    match write_large_rounds(alloc, &origin, round, words, fields) {
        Ok(()) => 0,
        Err(fault) => fault.number(),
    }
}

/// Writes the words after each of the rounds, of which each is above the one before it, one round after the other, to the front
/// of the words, on a network of any size whose nodes have the words `from` after the start, and how many fields there are; where
/// there is not one word in `from` for each field of each node, or too little room, how many fields there are alone, and then no
/// round is computed. All is done in one pass over the rounds.
#[unsafe(no_mangle)]
pub extern "C" fn unison_large_watch(
    alloc: Global,
    program: &[u8],
    offsets: &[usize],
    neighbours: &[u32],
    weights: &[u32],
    start: u32,
    from: &[u32],
    rounds: &[u32],
    words: &mut [u32],
    fields: &mut u32,
) -> u32
    ensures written { result ≡ 0 → HaveLargeRounds program.now offsets.now neighbours.now weights.now start from.now rounds.now words.old words.new fields.new }
    ensures kept { result ≢ 0 → words.new ≡ words.old }
    ensures sized { result ≢ 0 → result ≢ WORD_COUNT → result ≢ ROOM → fields.new ≡ fields.old }
    ensures refused { result ≢ 0 → IsLargeNumberOf (IsRefusedWatch program.now offsets.now neighbours.now weights.now start from.now rounds.now (length words.old) fields.new) result }
    ensures long { 65536 < length program.now → result ≡ 16 }
{
    let lists = Lists {
        offsets,
        neighbours,
        weights,
    };
    let origin = ListsStart {
        program,
        lists,
        start,
    };
    match write_large_watch(alloc, &origin, from, rounds, words, fields) {
        Ok(()) => 0,
        Err(fault) => fault.number(),
    }
}

/// Writes how many nodes have each of the values in a field after each of the rounds, and last in each round how many have none of
/// them, to the front of the counts, one round after the other, on a network of any size whose nodes have the words `from` after
/// the start, and how many fields there are; where there is not one word in `from` for each field of each node, no such field, too
/// many values or too little room, how many fields there are alone, and then no round is computed. All is done in one pass over
/// the rounds, each of which is above the one before it.
#[unsafe(no_mangle)]
pub extern "C" fn unison_large_counts(
    alloc: Global,
    program: &[u8],
    offsets: &[usize],
    neighbours: &[u32],
    weights: &[u32],
    start: u32,
    from: &[u32],
    rounds: &[u32],
    field: u32,
    values: &[u32],
    counts: &mut [u32],
    fields: &mut u32,
) -> u32
    ensures written { result ≡ 0 → HaveLargeCounts program.now offsets.now neighbours.now weights.now start from.now rounds.now field values.now counts.old counts.new fields.new }
    ensures kept { result ≢ 0 → counts.new ≡ counts.old }
    ensures sized { result ≢ 0 → result ≢ WORD_COUNT → result ≢ NO_FIELD → result ≢ TOO_MANY_VALUES → result ≢ ROOM → fields.new ≡ fields.old }
    ensures refused { result ≢ 0 → IsLargeNumberOf (IsRefusedCounts program.now offsets.now neighbours.now weights.now start from.now rounds.now field (length values.now) (length counts.old) fields.new) result }
    ensures long { 65536 < length program.now → result ≡ 16 }
{
    let lists = Lists {
        offsets,
        neighbours,
        weights,
    };
    let origin = ListsStart {
        program,
        lists,
        start,
    };
    let asked = CountedRounds {
        rounds,
        field,
        values,
    };
    match write_large_counts(alloc, &origin, from, &asked, counts, fields) {
        Ok(()) => 0,
        Err(fault) => fault.number(),
    }
}

/// Writes the words of a part's own nodes after the step from a round, node by node, and how many of these nodes changed, on a
/// part of a network of any size: ids has the number of each of its nodes in the whole network, the own nodes come first, and
/// there is room for the words of these alone.
#[unsafe(no_mangle)]
pub extern "C" fn unison_part_round(
    alloc: Global,
    program: &[u8],
    ids: &[u32],
    offsets: &[usize],
    neighbours: &[u32],
    weights: &[u32],
    round: u32,
    from: &[u32],
    to: &mut [u32],
    changed: &mut usize,
) -> u32
    ensures written { result ≡ 0 → HasPartRound program.now ids.now offsets.now neighbours.now weights.now round from.now (length to.old) to.new changed.new }
    ensures kept { result ≢ 0 → to.new ≡ to.old }
    ensures untold { result ≢ 0 → changed.new ≡ changed.old }
    ensures refused { result ≢ 0 → IsLargeNumberOf (IsRefusedPart program.now ids.now offsets.now neighbours.now weights.now (length from.now) (length to.old)) result }
    ensures long { 65536 < length program.now → result ≡ 16 }
{
    let lists = Lists {
        offsets,
        neighbours,
        weights,
    };
    let part = Part { ids, lists };
    match write_part_round(alloc, program, &part, round, from, to) {
        Ok(count) => {
            *changed = count;
            0
        }
        Err(fault) => fault.number(),
    }
}
