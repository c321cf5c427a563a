//! What holds of sessions of judged members, through every start of their programs.
//!
//! Nothing here runs. `specs/Calls.antt` says what happens to one, `specs/Judged.antt` which machine
//! that is, and `specs/Sessions.antt` which session of self-managing members a session of it is;
//! `specs/Terms.antt` what is asked of it, and what records have;
//! `specs/Laws.antt` what then holds, `specs/Timely.antt` by when all of it has come, and
//! `specs/Known.antt` that members who know each other go on to do so, as `specs/Knowing.antt` says
//! it of a judge; `specs/Days.antt` that what a user draws lies above what its page held.
//! `specs/Answering.antt` says how members come to know each other, and `specs/Twins.antt` how two
//! of one number see each other; `specs/Unhushed.antt` that what is firm is not hushed.
//! `specs/Examples.antt`, `specs/Meeting.antt`, `specs/Acquainted.antt`, `specs/Hushing.antt` and
//! `specs/SetBack.antt` have sessions, which compute. `laws` carries the laws, for other crates to
//! cite.
#![tactic(auto)]

pub mod laws;
