//! `life-rule RULE`: the model of a rule of cells that count their living neighbours.

use crate::life_notation::{LifeRule, MOST_STATES, Neighbourhood, NotationFault, Numbers};
use app_commands::asked_by;
use app_files::{Ending, print_out};
use app_table::{Argument, Command, Draft, Kind, OPTION, Reading, WordsFault};
use std::alloc::{AllocError, Global};

const RULE: Argument = Argument {
    name: "rule",
    kind: Kind::Positional,
    value_name: "RULE",
    help: "The rule: B36/S23 or 23/36, with a number of states B2/S/C3 or /2/3, over hexagons B2/S34H, and over the four nearest cells B1/SV",
    ..OPTION
};

/// `RULE`, as it is read.
static RULE_ARGUMENT: Argument = RULE;

/// `life-rule` and what it takes.
static LIFE_RULE: Command = Command {
    name: "life-rule",
    aliases: &[],
    called: "unison life-rule",
    about: "Print the model of a rule of Life's kind, as B36/S23",
    notes: "Prints a model whose field cell has the states dead and alive, and those through which cells of more states die; other commands take it as a file whose name ends in .model.\nAn example: unison life-rule B36/S23 > highlife.model\n",
    arguments: &[RULE],
    subcommands: &[],
};

/// The table of `life-rule`.
pub fn life_rule_command() -> &'static Command {
    &LIFE_RULE
}

/// The rule that plain words name.
fn word_in(alloc: Global, line: &[String]) -> Result<String, WordsFault> {
    let mut reading = Reading::of(alloc, life_rule_command(), line)?;
    let rule = reading.needed_text(&RULE_ARGUMENT);
    reading.end(rule)
}

/// What is told of a word that names no rule.
fn no_rule(alloc: Global, word: &str, fault: NotationFault) -> Ending {
    let text = match fault {
        NotationFault::NoForm => format!(in alloc;
            "life-rule: expected a rule as B36/S23 or 23/36, with more than two states as B2/S/C3 or /2/3, and H (hexagons) or V (four neighbours) after it where cells have others than eight neighbours; found `{word}`"
        ),
        NotationFault::Arrangements => format!(in alloc;
            "life-rule: `{word}` tells arrangements of neighbours apart, by letters after a number; a model counts neighbours, and does not see where they stand"
        ),
        NotationFault::TooMany => format!(in alloc;
            "life-rule: `{word}` names more neighbours than cells have: 8, with H after it 6, with V after it 4"
        ),
        NotationFault::States => format!(in alloc;
            "life-rule: `{word}`: cells have 2 to {MOST_STATES} states"
        ),
    };
    Ending::usage(text)
}

/// On which networks a rule runs.
fn networks_told(neighbourhood: Neighbourhood) -> &'static str {
    match neighbourhood {
        Neighbourhood::Eight =>
            "cells with eight neighbours: unison generate torus W H --diagonals",
        Neighbourhood::Hexagonal => "hexagons: unison generate hex W H",
        Neighbourhood::Four => "cells with four neighbours: unison generate torus W H",
    }
}

/// Adds the comment above the model.
fn put_comment(draft: &mut Draft, word: &str, rule: LifeRule) {
    draft.put("# ");
    draft.put(word);
    draft.put(", on ");
    draft.put(networks_told(rule.neighbourhood));
    draft.put("\n");
}

/// Adds the states of a cell: dead, alive, and those through which it dies.
fn put_states(draft: &mut Draft, states: u32) {
    draft.put("states life { dead, alive");
    for state in 2..states {
        draft.put(", dying_");
        draft.put_count(u64::from(state - 1));
    }
    draft.put(" }\n");
}

/// Adds a comparison of the number of living neighbours with another one.
fn put_comparison(draft: &mut Draft, operator: &str, count: u32) {
    draft.put("living ");
    draft.put(operator);
    draft.put(" ");
    draft.put_count(u64::from(count));
}

/// Adds the test for a number of living neighbours from one to another, of so many at most.
fn put_range(draft: &mut Draft, first: u32, last: u32, most: u32) {
    if first == last {
        put_comparison(draft, "==", first);
    } else if last == most {
        put_comparison(draft, ">=", first);
    } else if first == 0 {
        put_comparison(draft, "<=", last);
    } else {
        put_comparison(draft, ">=", first);
        draft.put(" and ");
        put_comparison(draft, "<=", last);
    }
}

/// Adds the test for one of these numbers of living neighbours.
fn put_numbers(draft: &mut Draft, numbers: Numbers) {
    let mut next = 0;
    for count in 0..=numbers.most() {
        if count >= next && numbers.has(count) {
            draft.put(if next == 0 { "" } else { " or " });
            let last = numbers.last_from(count);
            put_range(draft, count, last, numbers.most());
            next = last.saturating_add(1);
        }
    }
}

/// Adds the arm by which cells of a state are alive in the next round with one of these numbers of living neighbours; none
/// where there is no such number.
fn put_arm(draft: &mut Draft, state: &str, numbers: Numbers) {
    if numbers.is_empty() {
        return;
    }
    draft.put("    cell == ");
    draft.put(state);
    if !numbers.is_all() {
        draft.put(" and (");
        put_numbers(draft, numbers);
        draft.put(")");
    }
    draft.put(": alive;\n");
}

/// Adds the arms by which cells of more than two states die.
fn put_dying(draft: &mut Draft, states: u32) {
    if states > 2 {
        draft.put("    cell != dead and cell < dying_");
        draft.put_count(u64::from(states - 2));
        draft.put(": cell + 1;\n");
    }
}

/// The model of a rule that a word writes.
fn model_of(alloc: Global, word: &str, rule: LifeRule) -> Result<String, AllocError> {
    let mut draft = Draft::new(alloc);
    put_comment(&mut draft, word, rule);
    put_states(&mut draft, rule.states);
    draft.put(
        "field cell: life = dead;\n\nlet living = count(n.cell == alive);\n\nnext cell = cases {\n",
    );
    put_arm(&mut draft, "dead", rule.born);
    put_arm(&mut draft, "alive", rule.stays);
    put_dying(&mut draft, rule.states);
    draft.put("    else: dead;\n};\n");
    draft.end()
}

/// The model of the rule that a word writes.
fn model_for(alloc: Global, word: &str) -> Result<String, Ending> {
    match LifeRule::of(word) {
        Ok(rule) => Ok(model_of(alloc, word, rule)?),
        Err(fault) => Err(no_rule(alloc, word, fault)),
    }
}

/// Prints the model of a rule. The status with which the program ends.
pub(crate) fn print_life_rule(rt: &HostRuntime, words: &[String]) -> Result<u8, Ending> {
    let word = asked_by(word_in(rt.alloc(), words))?;
    let text = model_for(rt.alloc(), word.as_str())?;
    print_out(rt, text.as_bytes())
}
