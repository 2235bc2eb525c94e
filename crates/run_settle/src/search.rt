//! The search for a round whose states come again.
ghost use Rattle.std.specs.Prelude.{◌≡◌, ◌+◌, ◌*◌, ◌^◌, ◌<◌, ◌≤◌, None, false, IfOk, IfSome, MatchOption};
ghost use Rattle.rule_check.specs.Rounds.{reads_round};
ghost use Rattle.rounds_plan.specs.Configs.{most_rounds};
ghost use Rattle.run_settle.specs.Outcomes.{IsOpen, IsRestless};
ghost use Rattle.run_settle.specs.Searching.{IsAway, IsFound, last_of};

use crate::course::Course;
use rounds_walk::{RoundWalk, Way};
use std::alloc::{AllocError, Global};

/// What a search came upon.
#[derive(Clone, Copy)]
pub(crate) enum Found {
    /// The first round that the next one leaves as it is.
    Still { round: u32 },
    /// A round, and after how many rounds its states come again for the first time.
    Again { mark: u32, period: u32 },
}

/// Moves a walk one round on from a mark's round or a later one, and tells whether that round changed nothing, or else led
/// to the mark's states.
fn look_once<W: Way>(walk: &mut RoundWalk<'_>, way: &W, mark: &RoundWalk<'_>) -> Option<Found>
    requires way { W.serves way.now }
    requires room { walk.old.round + 1 < 2 ^ 32 }
    requires plan { mark.now.plan ≡ walk.old.plan }
    requires unread { reads_round walk.old.plan.program ≡ false }
    requires behind { mark.now.round ≤ walk.old.round }
    requires restless { IsRestless walk.old.plan walk.old.round }
    requires away { IsAway walk.old.plan mark.now.round (walk.old.round + 1) }
    ensures next { walk.new ≡ record { plan = walk.old.plan; round = walk.old.round + 1 } }
    ensures found { IfSome result (IsFound walk.old.plan) }
    ensures last { IfSome result (λ found. last_of found ≤ walk.new.round) }
    ensures restless { result ≡ None → IsRestless walk.old.plan (walk.old.round + 1) }
    ensures away { result ≡ None → IsAway walk.old.plan mark.now.round (walk.old.round + 2) }
{
    let round = walk.round();
    if !walk.step_by(way) {
        return Some(Found::Still { round });
    }
    if walk.is_like(mark) {
        let mark = mark.round();
        let period = walk.round() - mark;
        return Some(Found::Again { mark, period });
    }
    None
}

/// Moves a walk so many rounds on from a mark's round, or until it finds something.
fn look<W: Way>(
    walk: &mut RoundWalk<'_>,
    way: &W,
    mark: &RoundWalk<'_>,
    window: u32,
) -> Option<Found>
    requires way { W.serves way.now }
    requires room { walk.old.round + window < 2 ^ 32 }
    requires here { mark.now ≡ walk.old }
    requires unread { reads_round walk.old.plan.program ≡ false }
    requires restless { IsRestless walk.old.plan walk.old.round }
    ensures found { IfSome result (IsFound walk.old.plan) }
    ensures last { IfSome result (λ found. last_of found ≤ walk.old.round + window) }
    ensures there { result ≡ None → walk.new ≡ record { plan = walk.old.plan; round = walk.old.round + window } }
    ensures restless { result ≡ None → IsRestless walk.old.plan (walk.old.round + window) }
    ensures away { result ≡ None → IsAway walk.old.plan walk.old.round (walk.old.round + window + 1) }
{
    for _step in 0..window {
        if let Some(found) = look_once(walk, way, mark) {
            return Some(found);
        }
    }
    None
}

/// Looks for a round whose states come again, by two walks from the start on and in constant memory (R. P. Brent, An
/// improved Monte Carlo factorization algorithm, 1980): the mark stays behind while the other walk moves on, and catches up
/// at rounds that lie further and further apart. None, where no states come again up to the limit.
pub(crate) fn search<W: Way>(
    alloc: Global,
    course: &Course<'_, W>,
    limit: u32,
) -> Result<Option<Found>, AllocError>
    requires way { W.serves course.now.way.now }
    requires unread { reads_round course.now.start.now.program ≡ false }
    requires late { course.now.start.now.start ≤ limit }
    requires few { limit ≤ most_rounds }
    ensures found { IfOk result (λ found. MatchOption found (IsOpen course.now.start.now limit) (IsFound course.now.start.now)) }
    ensures last { IfOk result (λ found. IfSome found (λ found. last_of found ≤ 2 * most_rounds)) }
{
    let mut mark = course.begin(alloc)?;
    let mut walk = course.begin(alloc)?;
    let length = limit - course.first_round();
    // The mark stands at the round `reach - 1` after the start.
    let mut reach = 1;
    while reach < length {
        let next = (2 * reach).min(length);
        if let Some(found) = look(&mut walk, course.way, &mark, next - reach) {
            return Ok(Some(found));
        }
        mark.go_by(course.way, walk.round());
        reach = next;
    }
    Ok(look(&mut walk, course.way, &mark, length))
}
