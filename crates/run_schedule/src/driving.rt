//! Walks whose nodes a daemon chooses.
ghost use Rattle.std.specs.Prelude.{◌≡◌, None, [], IfErr, OnOk};
ghost use Rattle.unison_world.specs.View.{opened};
ghost use Rattle.run_schedule.specs.Daemons.{AreStepsUnder, KeepsTwo};
ghost use Rattle.run_schedule.specs.Walks.{AtRest, GoesOn, IsFull};

use crate::choosing::Draws;
use crate::daemon::Daemon;
use crate::fault::Halt;
use crate::together::move_together;
use crate::walk::Walk;
use std::alloc::Global;

/// Moves the nodes that a daemon chooses until none is enabled, from the world before any step on.
pub(crate) fn drive(alloc: Global, walk: &mut Walk, daemon: Daemon) -> Result<(), Halt>
    requires two { KeepsTwo daemon }
    requires none { walk.old.still ≡ None }
    requires opened { walk.old.world ≡ opened walk.old.world.plan walk.old.world.stop }
    requires begun { walk.old.steps ≡ [] }
    ensures goes { GoesOn walk.old walk.new }
    ensures rest { OnOk result (AtRest walk.new) }
    ensures under { OnOk result (AreStepsUnder walk.new.world.plan walk.new.world.stop daemon walk.new.limit walk.new.steps) }
    ensures full { IfErr result (λ halt. halt ≡ Halt.Full → IsFull walk.new × AreStepsUnder walk.new.world.plan walk.new.world.stop daemon walk.new.limit walk.new.steps) }
{
    // For the proof alone, as the two below: the call tells what holds of every world.
    let _first = walk.network();
    let mut draws = Draws::new(alloc, daemon);
    'groups: loop {
        let _network = walk.network();
        let nodes = draws.chosen(alloc, walk, daemon)?;
        if nodes.is_empty() {
            return Ok(());
        }
        move_together(alloc, walk, &nodes)?;
        draws.after(walk, &nodes)?;
        let _after = walk.network();
    }
}
