//! What holds of sessions of hosts of any kind: driven ones, self-managing ones and judged ones,
//! side by side and one after the other at a place.
//!
//! Nothing here runs. `specs/Hosts.antt` says what hosts are and what happens at them, and
//! `specs/Sessions.antt` what a session of them is asked. `laws` carries the laws, for other crates to
//! cite.
#![tactic(auto)]

pub mod laws;
