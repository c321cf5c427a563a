//! A host from the lines of its driver to the blocks that it writes.
ghost use Rattle.std.specs.Prelude.{◌≡◌, ◌^◌, ◌-◌, List, ℕ, None, true, false, Err, OnOk};
ghost use Rattle.std.specs.Io.KnownBytes.{Appends};
ghost use Rattle.wb_recovery.specs.Timing.{are_constants};
ghost use Rattle.wb_lines.specs.Driving.{Gave};
ghost use Rattle.wb_lines.specs.Input.{input_lines};
ghost use Rattle.wb_dialog.specs.Hosting.{IsEndless};
ghost use Rattle.wb_dialog.specs.Kinds.{transcript};
ghost use Rattle.wb_dialog.specs.Doing.{fault_of, Writes};

use crate::dialog::Dialog;
use crate::fault::HostFault;
use std::alloc::Global;
use std::convert::Infallible;
use wb_lines::{DriveFault, drive};
use wb_names::{Sink, Source};
use wb_recovery::Tuning;

/// Why a host stopped, by why the driver of its lines did. No line stops one.
fn fault_of(fault: DriveFault<Infallible>) -> HostFault
    ensures { result ≡ fault_of fault }
{
    match fault {
        DriveFault::Line(_, never) => match never {},
        DriveFault::Read => HostFault::Read,
        DriveFault::Write => HostFault::Write,
        DriveFault::Memory => HostFault::Memory,
        DriveFault::Endless => HostFault::Endless,
    }
}

/// Writes to a sink what a dialog without an open board answers to the lines that a source has
/// left. It stands apart from `host`, since the check of both as one function does not end.
fn answer_all<R: Source, W: Sink>(
    alloc: Global,
    dialog: &mut Dialog,
    source: &mut R,
    sink: &mut W,
) -> Result<(), HostFault>
    requires { dialog.old.host ≡ None }
    ensures text { (input : List ℕ) × (written : List ℕ)
        × Gave (R.left source.old) (R.left source.new) (R.has_failed source.new) input
        × Appends (W.taken sink.old) (W.taken sink.new) written
        × Writes (transcript dialog.old.tuning (R.has_failed source.new) input) written result
        × (result ≡ Err HostFault.Endless → IsEndless (2 ^ 64 - 1) (input_lines input)) }
    ensures whole { OnOk result (R.has_failed source.new ≡ false) }
    ensures read { result ≡ Err HostFault.Read → R.has_failed source.new ≡ true }
    ensures write { result ≡ Err HostFault.Write → W.has_failed sink.new ≡ true }
{
    match drive(alloc, u64::MAX, dialog, source, sink) {
        Ok(_) => Ok(()),
        Err(fault) => Err(fault_of(fault)),
    }
}

/// Answers the lines that a source has left, and writes their blocks to a sink: each before more is
/// read. The timers of the host have these constants, each from 1 to 16.
///
/// What is written is the transcript of the input, which ends where the source does or where it
/// fails. If memory runs out or the sink fails, a front of it is written; and so if it has no end
/// that is waited for: more than 2^64 - 1 lines, or one that is too long to pass over.
pub fn host<R: Source, W: Sink>(
    alloc: Global,
    tuning: Tuning,
    source: &mut R,
    sink: &mut W,
) -> Result<(), HostFault>
    requires { are_constants tuning ≡ true }
    ensures text { (input : List ℕ) × (written : List ℕ)
        × Gave (R.left source.old) (R.left source.new) (R.has_failed source.new) input
        × Appends (W.taken sink.old) (W.taken sink.new) written
        × Writes (transcript tuning (R.has_failed source.new) input) written result
        × (result ≡ Err HostFault.Endless → IsEndless (2 ^ 64 - 1) (input_lines input)) }
    ensures whole { OnOk result (R.has_failed source.new ≡ false) }
    ensures read { result ≡ Err HostFault.Read → R.has_failed source.new ≡ true }
    ensures write { result ≡ Err HostFault.Write → W.has_failed sink.new ≡ true }
{
    let mut dialog = Dialog::new(tuning);
    answer_all(alloc, &mut dialog, source, sink)
}
