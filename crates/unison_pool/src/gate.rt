//! What stands before each computation.

/// What a worker passes before each computation. A run returns only where each call does.
pub trait Gate {
    /// Is called with the worker's number and the node's, while the worker holds no lock.
    fn before_compute(&self, worker: u32, node: u32);
}

/// Lets every worker pass at once.
pub struct OpenGate;

impl Gate for OpenGate {
    fn before_compute(&self, _worker: u32, _node: u32) {}
}
