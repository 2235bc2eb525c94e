//! What the workers of a run share.

use std::alloc::AllocError;
use std::sync::atomic::{AtomicBool, Ordering};
use std::sync::{Mutex, Wait};
use unison_trace::{LogFault, Logged};
use unison_world::{Answer, Done, Step, Work, WriteAnswer};

/// The world, with its steps, under the one lock, and whether the workers are to end. Each call takes the lock once.
#[derive(Drop)]
pub struct Shared {
    logged: Mutex<Logged>,
    halt: AtomicBool,
}

impl Shared {
    /// A world under the lock.
    pub fn new(logged: Logged) -> Shared {
        Shared {
            logged: Mutex::new(logged),
            halt: AtomicBool::new(false),
        }
    }

    /// What stood under the lock, once the workers were joined.
    pub fn into_logged(self) -> Logged {
        let Shared { logged, halt: _ } = self;
        logged.into_inner()
    }

    /// Tells every worker to end.
    pub fn halt(&self) {
        self.halt.store(true, Ordering::SeqCst);
    }

    /// Whether the workers are to end.
    pub fn is_halted(&self) -> bool {
        self.halt.load(Ordering::SeqCst)
    }

    /// A step of the world.
    pub fn step(&self, rt: &impl Wait, step: Step) -> Result<Answer, LogFault> {
        self.logged.lock(rt).step(step)
    }

    /// The work of a node, where there is some.
    pub fn work(&self, rt: &impl Wait, node: u32) -> Result<Option<Work>, AllocError> {
        self.logged.lock(rt).work(node)
    }

    /// Puts a result into the world.
    pub fn put(&self, rt: &impl Wait, done: &Done) -> Result<WriteAnswer, LogFault> {
        self.logged.lock(rt).put(done)
    }
}
