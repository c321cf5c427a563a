//! What holds of sessions, whatever kind of member or host stands at their places.
//!
//! Nothing here runs, and nothing is promised here: a law of all kinds is a lemma, and each kind has
//! it as a contract of its own crate. `specs/Machines.antt` says what a kind is, and what a session of
//! it is; `specs/Honest.antt` what is asked of one; `specs/Laws.antt` what then holds; and
//! `specs/Maps.antt` when one kind does what another does.
#![tactic(auto)]
