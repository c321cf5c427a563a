//! Laws of members. Each function does nothing: its contract is a law, for proofs to cite.

ghost use Rattle.std.specs.Prelude.{◌≡◌};
ghost use Rattle.wb_member.specs.Calls.{CallsKeepBoards};
ghost use Rattle.wb_member.specs.Queries.{ViewOfPage, OnlyView};
ghost use Rattle.wb_member.specs.declared.member.TheConstants.{STREAM};

/// What a member shows of a page is the view of it, and there is no other.
pub fn views_are_one()
    ensures view { ViewOfPage }
    ensures only { OnlyView }
{}

/// The stream of a member's random words.
pub fn numbers()
    ensures { STREAM ≡ 54 }
{}

/// No call changes what a board holds.
pub fn calls_keep_boards()
    ensures { CallsKeepBoards }
{}
