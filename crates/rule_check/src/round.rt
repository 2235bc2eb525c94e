//! Whether code reads the number of the round.

ghost use Rattle.std.specs.Prelude.{◌≡◌, map};
ghost use Rattle.std.specs.List.{list_any};
ghost use Rattle.rule_check.specs.Rounds.{code_reads_round};
ghost use Rattle.rule_check.specs.Shapes.{rule_shape, part_shape};

use crate::code::Instr;
use crate::parts::{Gatherer, Rule};

/// Whether a rule's code reads it.
pub fn rules_read_round(rules: &[Rule]) -> bool
    ensures exact { result ≡ list_any (λ shape. code_reads_round shape.1) (map rule_shape rules.now) }
{
    for rule in rules {
        if reads_round(&rule.code) {
            return true;
        }
    }
    false
}

/// Whether an aggregate's code reads it.
pub fn parts_read_round(gatherers: &[Gatherer]) -> bool
    ensures exact { result ≡ list_any (λ shape. code_reads_round shape.1) (map part_shape gatherers.now) }
{
    for gatherer in gatherers {
        if reads_round(&gatherer.code) {
            return true;
        }
    }
    false
}

/// Whether code reads it.
fn reads_round(code: &[Instr]) -> bool
    ensures exact { result ≡ code_reads_round code.now }
{
    for instr in code {
        if matches!(instr, Instr::NodeRound) {
            return true;
        }
    }
    false
}
