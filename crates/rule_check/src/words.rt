//! The loops over a program's code, which fill the words of a state or of the aggregates' values.

ghost use Rattle.std.specs.Prelude.{◌≡◌, ◌≤◌, length, All, map};
ghost use Rattle.rule_check.specs.Value.{updated, cleared};
ghost use Rattle.rule_check.specs.Loops.{written, with_none, with_near};
ghost use Rattle.rule_check.specs.Shapes.{rule_shape, part_shape, IsRule, IsPart};
ghost use Rattle.rule_check.specs.Frames.{seen};

use crate::parts::{Field, Gatherer, Rule};
use crate::run::{DEPTH, Frame, run};
use crate::table::{gathered, opening};

/// Each field's initial value.
pub fn opening_words(fields: &[Field], words: &mut [u32; 8])
    requires few { length fields.now ≤ 8 }
    ensures exact { words.new ≡ updated (λ v w. v) (map (λ f. f.opening) fields.now) words.old }
{
    for (k, field) in fields.iter().enumerate() {
        words[k] = field.opening;
    }
}

/// Each aggregate's value over no neighbour.
pub fn start_words(gatherers: &[Gatherer], words: &mut [u32; 16])
    requires few { length gatherers.now ≤ 16 }
    ensures exact { words.new ≡ updated with_none (map part_shape gatherers.now) words.old }
{
    for (k, gatherer) in gatherers.iter().enumerate() {
        words[k] = opening(gatherer.agg);
    }
}

/// Each aggregate's value with one neighbour more.
pub fn take_words(
    stack: &mut [u32; DEPTH],
    gatherers: &[Gatherer],
    frame: &Frame,
    words: &mut [u32; 16],
)
    requires few { length gatherers.now ≤ 16 }
    requires run { All IsPart gatherers.now }
    ensures exact { words.new ≡ updated (with_near (seen frame.now)) (map part_shape gatherers.now) words.old }
{
    for (k, gatherer) in gatherers.iter().enumerate() {
        let value = run(stack, &gatherer.code, frame);
        words[k] = gathered(gatherer.agg, words[k], value);
    }
}

/// The first `count` words, and 0 for the others.
pub fn clear_words(count: usize, words: &mut [u32; 8])
    requires few { count ≤ 8 }
    ensures exact { words.new ≡ cleared count words.old }
{
    for k in count..8 {
        words[k] = 0;
    }
}

/// The words of the fields that have a rule.
pub fn finish_words(stack: &mut [u32; DEPTH], rules: &[Rule], frame: &Frame, words: &mut [u32; 8])
    requires run { All IsRule rules.now }
    ensures exact { words.new ≡ written (seen frame.now) (map rule_shape rules.now) words.old }
{
    for rule in rules {
        words[rule.field as usize] = run(stack, &rule.code, frame);
    }
}
