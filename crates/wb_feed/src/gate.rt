//! What is called round each accept of a worker.

/// Called by a worker's thread round each of its accepts. Workers are numbered from 0, and `nth`
/// counts the worker's own calls from 0.
pub trait Gate {
    /// Before the accept.
    fn before(&self, worker: u32, nth: u32);

    /// After the accept, whatever it answered.
    fn after(&self, worker: u32, nth: u32);
}

/// Does nothing.
#[derive(Clone, Copy, Debug)]
pub struct NoGate;

impl Gate for NoGate {
    fn before(&self, _worker: u32, _nth: u32) {}

    fn after(&self, _worker: u32, _nth: u32) {}
}
