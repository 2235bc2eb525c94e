//! The rounds before the first that comes again.
ghost use Rattle.std.specs.Prelude.{◌+◌, ◌*◌, ◌≤◌, IfOk};
ghost use Rattle.rounds_plan.specs.Configs.{most_rounds};
ghost use Rattle.rounds_walk.specs.Walking.{AreAlike};
ghost use Rattle.run_settle.specs.Searching.{IsFirstOf};

use crate::course::Course;
use rounds_walk::Way;
use std::alloc::{AllocError, Global};

/// The first round whose states come again after a period, where those of a mark's round do.
pub(crate) fn first_round<W: Way>(
    alloc: Global,
    course: &Course<'_, W>,
    mark: u32,
    period: u32,
) -> Result<u32, AllocError>
    requires way { W.serves course.now.way.now }
    requires late { course.now.start.now.start ≤ mark }
    requires few { mark + period ≤ 2 * most_rounds }
    requires again { AreAlike course.now.start.now mark (mark + period) }
    ensures first { IfOk result (λ round. IsFirstOf course.now.start.now period round) }
    ensures within { IfOk result (λ round. round ≤ mark) }
{
    let mut behind = course.begin(alloc)?;
    let mut ahead = course.begin(alloc)?;
    let start = course.first_round();
    ahead.go_by(course.way, start + period);
    for round in start..mark {
        if ahead.is_like(&behind) {
            return Ok(round);
        }
        behind.step_by(course.way);
        ahead.step_by(course.way);
    }
    Ok(mark)
}
