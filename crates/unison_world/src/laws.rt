//! Laws of the count machine.
ghost use Rattle.unison_world.specs.Counting.{StaysInStep};
ghost use Rattle.unison_world.specs.Progress.{CountsChanges, StepsFromStart};
ghost use Rattle.unison_world.specs.Turns.{SweepsRise};

/// After any list of steps from the start the counts are in step.
pub fn stays_in_step()
    ensures in_step { StaysInStep }
{}

/// Each step that changes the counts counts one.
pub fn counts_changes()
    ensures counted { CountsChanges }
{}

/// After s sweeps from the start each node has moved at least s times, or stands at the stop.
pub fn sweeps_rise()
    ensures rise { SweepsRise }
{}

/// From a start to a stop each round takes two reads a link and a write a node.
pub fn steps_from_start()
    ensures total { StepsFromStart }
{}
