//! A script, and a host of its lines. The function does nothing: its contract is a law, for proofs
//! to cite.

ghost use Rattle.wb_laws_hosts.specs.RunLaws.{AloneIsOneOrder, RefusedIsWithoutOks, RunIsTold, RunIsWithoutOks, ThreadIsTold};

/// A script in which each arrival is a batch of its own prints, by `run` with any number of
/// workers, what `host` prints for it, without the lines `ok DUE`. This is so if the run comes to
/// the end of the script, or to where reading fails. If a line is refused, which ends the run, it
/// prints what `host` prints for the lines before it. The timers of the host have the constants of
/// a script.
///
/// If batches have several arrivals, one thread prints the same, but for each batch one line with
/// the sums of what its arrivals count. What several workers print is that for a script with the
/// arrivals of each batch in some order.
pub fn runs_are_transcripts()
    ensures order { AloneIsOneOrder }
    ensures whole { RunIsWithoutOks }
    ensures refused { RefusedIsWithoutOks }
    ensures thread { ThreadIsTold }
    ensures several { RunIsTold }
{}
