//! The postfix code of a program, lent to those who evaluate it in a way of their own.

ghost use Rattle.std.specs.Prelude.{◌≡◌, ◌≤◌, ℕ, List, [], length, All, map, replicate};
ghost use Rattle.rule_check.specs.declared.state.State.{State};
ghost use Rattle.rule_check.specs.declared.state.Near.{Near};
ghost use Rattle.rule_check.specs.declared.state.Sums.{Sums};
ghost use Rattle.rule_check.specs.Value.{here_at, alone, updated, cleared};
ghost use Rattle.rule_check.specs.Gathering.{sums_at, taken, finished};
ghost use Rattle.rule_check.specs.Machine.{frame};
ghost use Rattle.rule_check.specs.Loops.{with_none, with_near, written};
ghost use Rattle.rule_check.specs.Shapes.{rule_shape, part_shape, IsRule, IsPart};

use super::Program;
use crate::parts::{Gatherer, Rule};

impl Program {
    /// The aggregates with the postfix code of their parts, in the text's order.
    pub fn aggregates(&self) -> &[Gatherer]
        ensures few { length result.now ≤ 16 }
        ensures run { All IsPart result.now }
        ensures start { (round id degree : ℕ) (own : State) → (sums_at self.now (here_at self.now round id degree own [])).words
            ≡ updated with_none (map part_shape result.now) (replicate 16 0) }
        // Code of an aggregate reads no sums, so they may be any.
        ensures take { (round id degree : ℕ) (own : State) (near : Near) (nears : List Near) (sums : Sums) (any : List ℕ) →
            (taken self.now (here_at self.now round id degree own nears) near sums).words
            ≡ updated (with_near (frame id degree round own near any)) (map part_shape result.now) sums.words }
    {
        &self.gatherers
    }

    /// The next items: for each the place of its field, and the postfix code of its expression.
    pub fn rules(&self) -> &[Rule]
        ensures run { All IsRule result.now }
        ensures finish { (round id degree : ℕ) (own : State) (sums : Sums) → length self.now.fields ≤ length own.words →
            (finished self.now round id degree own sums).words
            ≡ written (frame id degree round own (alone id own) sums.words) (map rule_shape result.now) (cleared (length self.now.fields) own.words) }
    {
        &self.rules
    }
}
