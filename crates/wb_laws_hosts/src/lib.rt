//! What holds of a session of hosts that drivers talk to, from the bytes of their lines to the
//! characters that they print.
//!
//! Nothing here runs. `specs/Texts.antt` says what a session of hosts is, and which deeds of
//! members its lines are, and `specs/Laws.antt` what then holds. `laws` carries the laws, for other
//! crates to cite.
#![tactic(auto)]

pub mod closings;
pub mod laws;
pub mod scripts;
