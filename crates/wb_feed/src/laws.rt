//! A law of batches. The function does nothing that is seen: its contract is the law, for proofs to
//! cite.

ghost use Rattle.wb_feed.specs.Calls.{BatchIsOneRun};

use wb_board::laws::one_run;

/// The replies of a batch are one run of a whiteboard of one thread, by the law of the board that
/// serves all its callers. Its workers are callers, and so is the desk, which takes what they left:
/// each gets its replies in its own order, at points of one history. The desk owned all rows before
/// the batch.
pub fn batches_are_one_run()
    ensures { BatchIsOneRun }
{
    one_run();
}
