//! Where a run is at work.

use std::alloc::Global;

/// Where a run is at work: the handle that starts its workers, the allocator, and the gate that
/// they call round each accept.
#[derive(Drop)]
pub struct Workplace<'a, T, G> {
    pub rt: &'a T,
    pub alloc: Global,
    pub gate: &'a G,
}
