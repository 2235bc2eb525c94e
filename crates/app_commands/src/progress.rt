//! How far long work is, told on standard error where that is a terminal.

use run_watch::{Progress, Span};
use std::io::IsTerminal;
use std::time::Instant;

/// How many lines of nodes are long work, so that rounds are told on a terminal while they are made.
const LONG: u64 = 1_000_000;

/// When it is now, where a clock tells.
fn now_of(rt: &HostRuntime) -> Option<Instant> {
    match Instant::now(rt) {
        Ok(now) => Some(now),
        Err(_) => None,
    }
}

/// How many seconds as much work may take as is left, where what is done took these.
pub fn seconds_for(left: u64, done: u64, seconds: u64) -> Option<u64> {
    seconds.checked_mul(left)?.checked_div(done)
}

/// How long work takes that is told.
#[derive(Drop)]
pub struct Stopwatch<'a> {
    rt: &'a HostRuntime,
    /// When the work began, where it is told.
    began: Option<Instant>,
}

impl<'a> Stopwatch<'a> {
    /// One that runs from now on where the work is long and standard error is a terminal.
    pub fn new(rt: &'a HostRuntime, is_long: bool) -> Stopwatch<'a> {
        let began = if is_long && rt.stderr().is_terminal() {
            now_of(rt)
        } else {
            None
        };
        Stopwatch { rt, began }
    }

    /// How many seconds the work has taken, where it is told.
    pub fn seconds(&self) -> Option<u64> {
        let began = self.began?;
        match began.elapsed(self.rt) {
            Ok(time) => Some(time.as_secs()),
            Err(_) => None,
        }
    }
}

/// Tells which round is reached and how long the others may take, where the work is long: once a second at most, from the
/// first second on, and at the end.
#[derive(Drop)]
pub struct Telling<'a> {
    watch: Stopwatch<'a>,
    first: u32,
    last: u32,
    /// After how many seconds the first round was reached.
    waited: u64,
    /// After how many seconds the next round is told.
    next: u64,
    /// Whether a round is told on a line that has no end yet.
    is_open: bool,
}

impl Progress for Telling<'_> {
    fn reached(&mut self, round: u32) {
        let Some(seconds) = self.watch.seconds() else {
            return;
        };
        if round == self.first {
            self.waited = seconds;
        }
        if seconds >= self.next {
            self.tell(round, seconds);
        }
        if round == self.last {
            self.tell_last();
        }
    }
}

impl<'a> Telling<'a> {
    /// What tells of these rounds of so many nodes.
    pub fn new(rt: &'a HostRuntime, span: &Span, nodes: u32) -> Telling<'a> {
        let lines = (span.last() as u64).saturating_mul(nodes as u64);
        let watch = Stopwatch::new(rt, lines >= LONG);
        Telling::by(watch, span.first(), span.round_at(span.steps()))
    }

    /// What tells of the rounds from one on to the last one, which are long work.
    pub fn of_rounds(rt: &'a HostRuntime, first: u32, last: u32) -> Telling<'a> {
        Telling::by(Stopwatch::new(rt, true), first, last)
    }

    /// What tells of the rounds from one on to the last one by a watch that runs.
    fn by(watch: Stopwatch<'a>, first: u32, last: u32) -> Telling<'a> {
        Telling {
            watch,
            first,
            last,
            waited: 0,
            next: 1,
            is_open: false,
        }
    }

    /// How many seconds the rounds after this one may take, which is reached after so many.
    fn seconds_left(&self, round: u32, seconds: u64) -> Option<u64> {
        let left = self.last.saturating_sub(round) as u64;
        let done = round.saturating_sub(self.first) as u64;
        seconds_for(left, done, seconds.saturating_sub(self.waited))
    }

    /// Tells of a round that is reached after so many seconds.
    fn tell(&mut self, round: u32, seconds: u64) {
        let (rt, last) = (self.watch.rt, self.last);
        if let Some(left) = self.seconds_left(round, seconds) {
            let _ = eprint!(rt; "\rround {round} of {last}, some {left} s left   ");
            self.next = seconds.saturating_add(1);
            self.is_open = true;
        }
    }

    /// Tells that the last round is reached, where others were told before.
    fn tell_last(&mut self) {
        if self.is_open {
            let (rt, last) = (self.watch.rt, self.last);
            let _ = eprint!(rt; "\rround {last} of {last}                  ");
            self.end();
        }
    }

    /// Ends the line on which a round is told, where it has no end yet: rounds may end before the last one.
    pub fn end(&mut self) {
        if self.is_open {
            let rt = self.watch.rt;
            let _ = eprintln!(rt; "");
            self.is_open = false;
        }
    }
}

/// Tells nothing.
#[derive(Drop)]
pub(crate) struct Silent;

impl Progress for Silent {
    fn reached(&mut self, _round: u32) {}
}
