//! When a lost drawop comes to self-managing hosts.
//!
//! Nothing here runs. `specs/Sessions.antt` says what a session of such hosts is,
//! `specs/Repairs.antt` what brings a drawop to one that lacks it, and `laws` carries the laws, for
//! other crates to cite.
#![tactic(auto)]

pub mod laws;
