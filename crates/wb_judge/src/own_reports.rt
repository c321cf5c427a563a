//! The moments of our own reports.

ghost use Rattle.std.specs.Prelude.{◌≡◌, ◌&&◌, [], IfOk, None, Some, nat_eq, nat_le};
ghost use Rattle.std.specs.List.{list_any};
ghost use Rattle.wb_judge.specs.Answers.{answers, reported};

use crate::limits::{DRIFT, FRESH, MOST_OWN};
use std::alloc::{AllocError, Global};
use std::marker::Model;
use wb_names::Echo;

/// The moments of our last 256 reports.
#[derive(Drop)]
pub struct OwnReports {
    moments: Vec<u64>,
}

impl Model for OwnReports {
    ghost use Rattle.std.specs.Prelude.{ℕ, List, length, ◌≤◌, vec_capacity};

    ghost Value = { List ℕ };

    ghost view = { λ r. r.moments.items };

    ghost invariant = { λ r. (length r.moments.items ≤ 256) × (256 ≤ vec_capacity r.moments) };
}

impl OwnReports {
    /// We have not reported yet.
    pub(crate) fn new(alloc: Global) -> Result<OwnReports, AllocError>
        ensures { IfOk result (λ r. r ≡ []) }
    {
        let moments = Vec::with_capacity(alloc, MOST_OWN)?;
        Ok(OwnReports { moments })
    }

    /// A report of ours has this moment.
    pub(crate) fn put(&mut self, sent: u64)
        ensures { self.new ≡ reported sent self.old }
    {
        if self.moments.len() >= MOST_OWN {
            let _first = self.moments.remove(0);
        }
        self.moments.push_reserved(sent);
    }

    /// Whether one of ours has this moment.
    pub(crate) fn has(&self, sent: u64) -> bool
        ensures { result ≡ list_any (nat_eq sent) self.now }
    {
        self.moments.iter().any(|moment| sent == *moment)
    }

    /// Whether this echo of us answers us.
    #[tactic(auto, unfolding(crate::specs::Answers::answers))]
    pub(crate) fn is_answered(&self, echo: Option<Echo>, now: u64) -> bool
        ensures { result ≡ answers self.now echo now }
    {
        match echo {
            None => false,
            Some(echo) => {
                let ago = now.saturating_sub(echo.sent);
                self.has(echo.sent) && ago <= FRESH && echo.held <= ago + ago / DRIFT
            }
        }
    }
}
