//! What the threads of a batch share.

use crate::channel::ChannelReceiver;
use std::alloc::{AllocError, Global};
use wb_board::Board;

/// What all threads of a batch share: the handle, the allocator, the board, the end of the channel
/// that they receive by, what is called round each accept, and how many workers there are.
pub(crate) struct Shared<'e, R, G> {
    pub(crate) rt: &'e R,
    pub(crate) alloc: Global,
    pub(crate) board: &'e Board,
    pub(crate) end: &'e ChannelReceiver,
    pub(crate) gate: &'e G,
    pub(crate) workers: u32,
}

impl<'e, R, G> Clone for Shared<'e, R, G> {
    fn clone(&self) -> Result<Shared<'e, R, G>, AllocError> {
        Ok(*self)
    }
}

impl<'e, R, G> Copy for Shared<'e, R, G> {}
