//! Schedules of steps, as they are read, and worlds that take them.

use app_files::{Ending, bytes_at};
use app_jobs::ServeFault;
use unison_trace::{ReplayFault, ScheduleFault, read_schedule};
use unison_world::{OpenFault, Step};

/// The ending where a text is no schedule.
fn no_schedule(fault: ScheduleFault) -> Ending {
    match fault {
        ScheduleFault::Memory => Ending::Memory,
        fault => Ending::Served(ServeFault::Replay(ReplayFault::Schedule(fault))),
    }
}

/// The steps of the schedule at a path.
pub fn steps_at(rt: &HostRuntime, path: &str) -> Result<Vec<Step>, Ending> {
    let schedule = bytes_at(rt, path)?;
    read_schedule(rt.alloc(), &schedule).map_err(no_schedule)
}

/// The ending where the plan has no world.
pub fn no_world(fault: OpenFault) -> Ending {
    match fault {
        OpenFault::Memory => Ending::Memory,
        fault => Ending::Served(ServeFault::Replay(ReplayFault::Opening(fault))),
    }
}
