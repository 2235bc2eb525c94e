//! The rounds of a span, one after the other, in one pass, told while they are made.

use app_commands::Telling;
use rounds_walk::{PlanRef, RoundWalk, Start};
use rule_check::State;
use run_watch::{Progress, Span};
use std::alloc::{AllocError, Global};
use std::thread::Threads;

/// The start of a plan, laid out for so many threads.
pub(crate) fn start_of<'a>(
    alloc: Global,
    plan: &PlanRef<'a>,
    threads: usize,
) -> Result<Start<'a>, AllocError> {
    if threads > 1 {
        Start::to_share(alloc, plan)
    } else {
        Start::new(alloc, plan)
    }
}

/// The rounds of a span that a start leads to.
#[derive(Drop)]
pub(crate) struct ShownRounds<'a, R> {
    alloc: Global,
    threads: &'a R,
    walk: RoundWalk<'a>,
    span: &'a Span,
    telling: Telling<'a>,
}

impl<'a, R: Threads + Sync> ShownRounds<'a, R> {
    /// Those of a start, each shared among so many threads.
    pub(crate) fn new(
        rt: &'a HostRuntime,
        threads: &'a R,
        start: &'a Start<'a>,
        span: &'a Span,
        count: usize,
    ) -> Result<ShownRounds<'a, R>, AllocError> {
        let walk = start.shared_walk(rt.alloc(), count)?;
        let telling = Telling::of_rounds(rt, start.start(), span.round_at(span.steps()));
        Ok(ShownRounds {
            alloc: rt.alloc(),
            threads,
            walk,
            span,
            telling,
        })
    }

    /// The allocator.
    pub(crate) fn alloc(&self) -> Global {
        self.alloc
    }

    /// The rounds that are shown.
    pub(crate) fn span(&self) -> &'a Span {
        self.span
    }

    /// Goes on to a round, unless it is there or beyond, which is told.
    pub(crate) fn go_to(&mut self, round: u32) {
        if self.walk.round() < round {
            self.walk.go_to_shared(self.threads, round);
        }
        self.telling.reached(round);
    }

    /// The states of all nodes after a round, to which the walk goes on unless it is there or beyond.
    pub(crate) fn states(&mut self, round: u32) -> Result<Vec<State>, AllocError> {
        self.go_to(round);
        self.walk.states(self.alloc)
    }

    /// The walk, at the round to which it went last.
    pub(crate) fn into_walk(mut self) -> RoundWalk<'a> {
        self.telling.end();
        self.walk
    }
}
