//! Laws of machines. Each function does nothing: its contract is a law, for proofs to cite.

ghost use Rattle.wb_laws_machines.specs.Laws.{HeldOnce, HeldWasDrawn, NamesMeanOne, NoneClashes, NumbersCount, WholeBoardsAgree};
ghost use Rattle.wb_host_sessions.specs.Clocks.{JudgedKeepTime};
ghost use Rattle.wb_host_sessions.specs.Digests.{HostsHaveOneDigest};
ghost use Rattle.wb_host_sessions.specs.Examples.{IsMixed};
ghost use Rattle.wb_host_sessions.specs.Hosts.{hosts};
ghost use Rattle.wb_host_sessions.specs.Records.{BoardsAreFiles, RecordedHostsAgree, RecordsTell};
ghost use Rattle.wb_host_sessions.specs.Timers.{TimersTellHoldings};
ghost use Rattle.wb_host_sessions.specs.Sessions.{HostsAgree, HostsAreHonest, HostsAreMembers, SentWasDrawn};

/// Two hosts, of whatever kinds, that have one report of a page, and no gaps there, hold and show the
/// same there, at any two moments of a session, whatever is forged on other pages: if programs start
/// with their files, or with other records that are whole, or if hosts know their own numbers all the
/// same.
pub fn hosts_agree()
    ensures recorded { RecordedHostsAgree }
    ensures known { HostsAgree }
{}

/// Hosts whose programs start so know their own numbers whenever they draw. For the board of a judged
/// host is what its file has.
pub fn records_tell()
    ensures records { RecordsTell }
    ensures boards { BoardsAreFiles }
{}

/// Two hosts, of whatever kinds, that have one report of a page, and no gaps there, have one digest of
/// it. Else somebody forged, two drew under one number, or a record was lost.
pub fn hosts_have_one_digest()
    ensures { HostsHaveOneDigest }
{}

/// Nothing is invented or changed: what hosts do that keep to their terms is what is asked of each
/// machine; and then each drawop of the page that a host holds, held or sends was drawn by its source,
/// in every field, and each name means one drawop. None stands twice on a board, and no clash comes up.
pub fn nothing_is_invented()
    ensures honest { HostsAreHonest }
    ensures held { HeldWasDrawn hosts }
    ensures names { NamesMeanOne hosts }
    ensures numbers { NumbersCount hosts }
    ensures once { HeldOnce hosts }
    ensures sent { SentWasDrawn }
    ensures clashes { NoneClashes hosts }
{}

/// Two hosts, of whatever kinds, that hold all that was drawn on a page hold and show the same there.
pub fn whole_boards_agree()
    ensures { WholeBoardsAgree hosts }
{}

/// A session of hosts is one of members.
pub fn hosts_are_members()
    ensures { HostsAreMembers }
{}

/// No request timer stands for what a host holds, and a repair timer only for what it holds.
pub fn timers_tell_holdings()
    ensures { TimersTellHoldings }
{}

/// A session of judged members that keeps time is one of self-managing members, and that keeps
/// time.
pub fn judged_members_keep_time()
    ensures { JudgedKeepTime }
{}

/// An example: a driven host, a self-managing one and a judged one agree, though something is forged
/// on another page, and two of the three programs start anew from what was drawn.
pub fn three_kinds_agree()
    ensures { IsMixed }
{}
