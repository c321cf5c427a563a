//! Laws of keepers. Each function does nothing that is seen: its contract is a law, for proofs to cite.

ghost use Rattle.wb_keeper.specs.Hearing.{OneSent, AnswersAreSent};
ghost use Rattle.wb_keeper.specs.Missing.{FirstAreWanted, OneWanted, WantedOfPage};
ghost use Rattle.std.specs.Prelude.{◌≡◌, All, Ok};
ghost use Rattle.wb_codec.specs.Ranges.{IsDatagram};
ghost use Rattle.wb_codec.specs.Reading.{reading};
ghost use Rattle.wb_codec.specs.Spelling.{spelling};
ghost use Rattle.wb_keeper.specs.Dues.{NextDueIsLeast};
ghost use Rattle.wb_keeper.specs.Known.{KnownPagesAreKnown};
ghost use Rattle.wb_keeper.specs.Sessions.{OneSession, MessageIsSession};
ghost use Rattle.wb_keeper.specs.KeeperLaws.{AnswersWithHeld, AsksForNoneHeld, DrawopsOnlyMove, FirstSendersAreEchoed, MarksAreGreatest, MergedAreGreatest, OrderOfArrivalIsFree, OwnOnlyMoves, StoppedByCalls};

use wb_codec::Datagram;
use wb_codec::laws::{datagrams_are_in_range, reading_undoes_spelling};

/// There is one list that a keeper sends at once for what it hears, and one list of the names that
/// it wants of a page; each is the value of a function.
pub fn keepers_answer_alike()
    ensures sent { OneSent }
    ensures wanted { OneWanted }
    ensures answers { AnswersAreSent }
    ensures names { WantedOfPage }
{}

/// The names that a keeper wants of a page are, ascending, those of the page that are known of, not
/// held and without a request timer: the first of them, as many as bring the standing request
/// timers to 64.
pub fn first_are_wanted()
    ensures { FirstAreWanted }
{}

/// There is one session message of a moment, and a function gives it: `session` has no choice in
/// what it answers.
pub fn one_session()
    ensures one { OneSession }
    ensures message { MessageIsSession }
{}

/// A keeper after an arrival of names is one after an arrival of the same names in another order.
pub fn order_of_arrival_is_free()
    ensures { OrderOfArrivalIsFree }
{}

/// The accepted calls and the history tell which request timers a tick stops, since what these ask
/// for is held.
pub fn stopped_by_calls()
    ensures { StoppedByCalls }
{}

/// A tick asks, as this member, for just the names whose request timer is due and that the desk
/// does not hold; and it answers with just those members of the history whose answer timer is due
/// and for whose names no request timer stands.
pub fn ticks_spare_what_is_held()
    ensures asks { AsksForNoneHeld }
    ensures answers { AnswersWithHeld }
{}

/// The mark of a source on a page is the greatest number that a datagram of another member told,
/// and the marks of a page that are merged from datagrams have those numbers.
pub fn marks_are_greatest()
    ensures marks { MarksAreGreatest }
    ensures merged { MergedAreGreatest }
{}

/// A datagram that comes from this member itself, and a drawop of whomever, move the moment and
/// nothing else.
pub fn own_datagrams_only_move()
    ensures own { OwnOnlyMoves }
    ensures drawops { DrawopsOnlyMove }
{}

/// A session message echoes the first 65,535 members whose session messages were heard, each with
/// the last that it sent.
pub fn first_senders_are_echoed()
    ensures { FirstSendersAreEchoed }
{}

/// The known pages are those that have a drawop or of which some mark was heard.
pub fn known_pages_are_known()
    ensures { KnownPagesAreKnown }
{}

/// The next moment of a keeper is the least at which a timer of some name is due.
pub fn next_due_is_least()
    ensures { NextDueIsLeast }
{}

/// Each datagram that a keeper gives out has all its fields in range: `write` spells it, and `read`
/// gives it back.
pub fn sent_is_read_back(sent: &[Datagram])
    ensures ranges { All IsDatagram sent.now }
    ensures read { All (λ v. reading (spelling v) ≡ Ok v) sent.now }
{
    for datagram in sent {
        datagrams_are_in_range(datagram);
    }
    reading_undoes_spelling();
}
