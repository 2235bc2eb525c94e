//! How far several runs are, told on standard error where that is a terminal.

use app_commands::{Stopwatch, seconds_for};
use run_counts::RunsProgress;
use std::sync::atomic::{AtomicU64, Ordering};

/// Tells how many of several runs are made and how long the others may take: once a second at most, from the first second
/// on, and at the end. Threads tell it side by side.
#[derive(Drop)]
pub struct RunsTelling<'a> {
    rt: &'a HostRuntime,
    watch: Stopwatch<'a>,
    runs: u64,
    made: AtomicU64,
    /// After how many seconds was told last; 0 before anything is told.
    told: AtomicU64,
}

impl RunsProgress for RunsTelling<'_> {
    fn made(&self) {
        let Some(seconds) = self.watch.seconds() else {
            return;
        };
        let made = self.made.fetch_add(1, Ordering::SeqCst).saturating_add(1);
        if self.told.swap(seconds, Ordering::SeqCst) < seconds {
            self.tell(made, seconds);
        }
    }
}

impl<'a> RunsTelling<'a> {
    /// What tells of so many runs.
    pub fn new(rt: &'a HostRuntime, runs: usize) -> RunsTelling<'a> {
        RunsTelling {
            rt,
            watch: Stopwatch::new(rt, true),
            runs: runs as u64,
            made: AtomicU64::new(0),
            told: AtomicU64::new(0),
        }
    }

    /// Tells of so many runs that are made after so many seconds.
    fn tell(&self, made: u64, seconds: u64) {
        let (rt, runs) = (self.rt, self.runs);
        if let Some(left) = seconds_for(runs.saturating_sub(made), made, seconds) {
            let _ = eprint!(rt; "\r{made} of {runs} runs, some {left} s left   ");
        }
    }

    /// Tells how many runs were made at last, where others were told before.
    pub fn end(&self) {
        if self.told.load(Ordering::SeqCst) > 0 {
            let (rt, runs) = (self.rt, self.runs);
            let made = self.made.load(Ordering::SeqCst);
            let _ = eprintln!(rt; "\r{made} of {runs} runs                    ");
        }
    }
}
