//! Laws of steps that are told.
ghost use Rattle.run_steps.specs.explain.Differences.{DifferByOneAtMost};
ghost use Rattle.run_steps.specs.explain.Registers.{ReadsOwnRound};
ghost use Rattle.run_steps.specs.explain.Sentences.{SaysOwnRound};
ghost use Rattle.run_steps.specs.explain.Summaries.{EachIsCounted};
ghost use Rattle.run_steps.specs.explain.Telling.{FarStopsTellTheSame};
ghost use Rattle.run_steps.specs.explain.Words.{SpelledAsInSchedules};

/// From the start on, whatever the steps, the count of a node that has just moved differs from a neighbour's by 1 at most, so
/// that the greatest difference that is told is 0 or 1.
pub fn differ_by_one_at_most()
    ensures near { DifferByOneAtMost }
{}

/// A step is spelled as its line in a schedule, without the end of the line.
pub fn spelled_as_in_schedules()
    ensures spelled { SpelledAsInSchedules }
{}

/// The numbers of the answers in a summary add up to the number of steps.
pub fn each_is_counted()
    ensures counted { EachIsCounted }
{}

/// Whatever steps were made before, a read that is taken takes the neighbour's lockstep state of the reader's own round: the
/// current one where the neighbour has moved as often, the previous one where it has moved once more. And the phases of
/// the two registers alone tell which it is. The sentence of the read says so, with that state.
pub fn reads_own_round()
    ensures reads { ReadsOwnRound }
    ensures says { SaysOwnRound }
{}

/// Stops that no node can reach by so many steps, as they lie at least so many rounds behind the start, all tell the same
/// text: as if there were no stop.
pub fn far_stops_tell_the_same()
    ensures same { FarStopsTellTheSame }
{}
