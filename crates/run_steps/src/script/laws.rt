//! Laws of texts.
ghost use Rattle.run_steps.specs.script.Refusals.{BeginningsEnd};
ghost use Rattle.run_steps.specs.script.Spelled.{OneLineIsSpelled};

/// Every beginning of a text is the front of a whole one: its open repeats can be ended.
pub fn beginnings_end()
    ensures ends { BeginningsEnd }
{}

/// The same words spell one line at most.
pub fn one_line_is_spelled()
    ensures one { OneLineIsSpelled }
{}
