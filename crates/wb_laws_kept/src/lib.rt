//! What holds of sessions of self-managing members, through every start of their programs.
//!
//! Nothing here runs. `specs/Calls.antt` says what happens to one, `specs/Openings.antt` how a
//! program starts, `specs/Kept.antt` which machine that is, and `specs/Sessions.antt` what a session
//! of it is; `specs/Restarts.antt` what records have and what then holds, and
//! `specs/Listening.antt` what a member hears of its own number. `laws` carries the laws, for other
//! crates to cite.
#![tactic(auto)]

pub mod laws;
