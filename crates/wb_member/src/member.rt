//! A member: what it is handed, and what follows.
ghost use Rattle.std.specs.Prelude.{◌≡◌, ◌<◌, ◌≤◌, ◌^◌, ◌∷◌, [], false, true, filter, length, IfOk, OnOk, OnErr, IfSome, IsTrue, MatchResult};
ghost use Rattle.wb_names.specs.Arrivals.{outcome_of};
ghost use Rattle.wb_names.specs.Moments.{IsMoment};
ghost use Rattle.wb_board.specs.Counts.{IsCellCount};
ghost use Rattle.wb_recovery.specs.Timing.{are_constants};
ghost use Rattle.wb_keeper.specs.Keeper.{Arrive, holds};
ghost use Rattle.wb_keeper.specs.KeepFaults.{IsKeptBy, delay_fault};
ghost use Rattle.wb_keeper.specs.Keeping.{Keeps};
ghost use Rattle.wb_member.specs.Board.{OwnsAll, held_of};
ghost use Rattle.wb_member.specs.Holding.{IsOpenAt, IsUnreached, board_after, outcome_in};
ghost use Rattle.wb_member.specs.Opened.{Opened, opened_with, present, becomes, accepted, heard, heard_fault, takes_word, answered, with_delay, with_constants, next_due, ticked, ticked_fault, sent_by, next_number};

mod asking;
mod judged;
mod telling;

use std::alloc::{AllocError, Global};
use std::marker::Model;
use wb_board::{Board, BoardFault, Desk, OpenFault, Reply};
use wb_codec::Datagram;
use wb_keeper::{KeepFault, Keeper};
use wb_names::{Drawop, Name, PageId};
use wb_random::RandomWords;
use wb_recovery::{Tuning, TuningFault};

/// The stream that a member takes its random words from. Its policy has another.
pub const STREAM: u64 = 54;

/// A board, what its member keeps of the session, and the random words that were not taken yet.
///
/// What the keeper holds stands for the calls that it accepted. So the contracts speak of each
/// member at which the code may be, and say at which it is afterwards.
#[derive(Drop)]
pub struct Member {
    pub(crate) board: Board,
    /// The only desk of the board: it owns all rows.
    pub(crate) desk: Desk,
    pub(crate) keeper: Keeper,
    pub(crate) words: RandomWords,
}

impl Model for Member {
    ghost use Rattle.wb_member.specs.Board.{OwnsAll, held_of};
    ghost use Rattle.wb_member.specs.Holding.{MemberValue};

    ghost Value = { MemberValue };

    ghost view = { λ s. record { board = held_of s.desk; keeper = s.keeper; words = s.words } };

    ghost invariant = { λ s. OwnsAll s.board s.desk };
}

impl Member {
    /// An empty board of `cells` cells, a keeper of the member that has heard nothing, with these
    /// constants of its timers, and the random words of a seed.
    #[tactic(auto, unfolding(crate::specs::Random::started))]
    pub fn open(
        alloc: Global,
        member: u32,
        cells: u32,
        seed: u64,
        tuning: Tuning,
    ) -> Result<Self, AllocError>
        requires cells { IsCellCount cells }
        requires constants { are_constants tuning ≡ true }
        ensures { IfOk result (λ s. IsOpenAt s (opened_with tuning member cells seed)) }
    {
        let (board, desk) = opened(alloc, cells)?;
        match Keeper::new(alloc, member, tuning) {
            Ok(keeper) => Ok(Member {
                board,
                desk,
                keeper,
                words: RandomWords::new(STREAM, seed),
            }),
            Err(_) => unreachable!(),
        }
    }

    /// Its number.
    pub fn me(&self) -> u32
        ensures { (host : Opened) → IsOpenAt self.now host → result ≡ host.is.number }
    {
        self.keeper.me()
    }

    /// The present moment in microseconds, below 2^48, and at first 0.
    pub fn moment(&self) -> u64
        ensures moment { (host : Opened) → IsOpenAt self.now host → result ≡ present host }
        ensures range { IsMoment result }
    {
        self.keeper.moment()
    }

    /// How many drawops are held.
    pub fn held(&self) -> u32
        ensures { result ≡ length self.now.board.drawops }
    {
        self.desk.list().len() as u32
    }

    /// A drawop arrives, as a batch of its own, and the member tells its keeper. Answers what
    /// became of it: None if it is new and the board is full.
    pub fn accept(&mut self, drawop: &Drawop) -> Result<Option<Reply>, AllocError>
        ensures accepted { IfOk result (λ reply. (host : Opened) → IsOpenAt self.old host →
            (outcome_in reply ≡ becomes drawop.now host) ×
            IsOpenAt self.new (accepted drawop.now host)) }
        ensures err { OnErr result (self.new ≡ self.old) }
    {
        let reply = take(&self.board, &mut self.desk, drawop)?;
        tell_arrived(&mut self.keeper, &self.desk, &[drawop.name()]);
        Ok(reply)
    }

    /// A datagram other than a drawop is heard at the present moment. Answers what is sent at once.
    /// Refused with `TooMany`, if a page would have marks of over 65,535 sources, or `Memory`.
    pub fn hear(&mut self, alloc: Global, datagram: &Datagram) -> Result<Vec<Datagram>, KeepFault>
        ensures fault { (host : Opened) → IsOpenAt self.old host →
            IsKeptBy (heard_fault datagram.now host) result }
        ensures sent { IfOk result (λ sent. (host : Opened) → IsOpenAt self.old host →
            (sent.items ≡ answered datagram.now host) ×
            IsOpenAt self.new (heard datagram.now host)) }
        ensures err { OnErr result (self.new ≡ self.old) }
    {
        let now = self.keeper.moment();
        if takes_word(datagram) {
            let (word, rest) = self.words.next_ahead()?;
            let sent = self
                .keeper
                .hear(alloc, &self.board, &mut self.desk, now, datagram, word)?;
            self.words = rest;
            return Ok(sent);
        }
        self.keeper
            .hear(alloc, &self.board, &mut self.desk, now, datagram, 0)
    }

    /// Sets the delay to a source, in microseconds. Refused with `Range`, from 2^24 microseconds
    /// on, or `Memory`.
    pub fn set_delay(&mut self, source: u32, micros: u64) -> Result<(), KeepFault>
        ensures fault { IsKeptBy (delay_fault micros) result }
        ensures set { IfOk result (λ _. (host : Opened) → IsOpenAt self.old host →
            IsOpenAt self.new (with_delay source micros host)) }
        ensures err { OnErr result (self.new ≡ self.old) }
    {
        self.keeper.set_delay(source, micros)
    }

    /// Gives its timers other constants, each 1 to 16, for what is set or backed off from now on. A
    /// timer that stands keeps its moment. Refused with `Constant`.
    pub fn set_constants(&mut self, constants: Tuning) -> Result<(), TuningFault>
        ensures constants { MatchResult result (λ _. IsTrue (are_constants constants))
            (λ e. are_constants constants ≡ false) }
        ensures set { IfOk result (λ _. (host : Opened) → IsOpenAt self.old host →
            IsOpenAt self.new (with_constants constants host)) }
        ensures err { OnErr result (self.new ≡ self.old) }
    {
        self.keeper.set_constants(constants)
    }

    /// The least moment at which a timer is due, and so when the next tick has something to do.
    /// None if no timer stands.
    pub fn next_due(&self) -> Option<u64>
        ensures { (host : Opened) → IsOpenAt self.now host → result ≡ next_due host }
    {
        self.keeper.next_due()
    }

    /// Time goes on to a moment in microseconds. Answers what is sent: the requests and repairs
    /// that are due. Refused with `BackInTime`, before the present moment, or `Memory`.
    pub fn tick(&mut self, alloc: Global, now: u64) -> Result<Vec<Datagram>, KeepFault>
        requires { IsMoment now }
        ensures fault { (host : Opened) → IsOpenAt self.old host →
            IsKeptBy (ticked_fault now host) result }
        ensures sent { IfOk result (λ sent. (host : Opened) → IsOpenAt self.old host →
            (sent.items ≡ sent_by now host) × IsOpenAt self.new (ticked now host)) }
        ensures err { OnErr result (self.new ≡ self.old) }
    {
        if now < self.keeper.moment() {
            return Err(KeepFault::BackInTime);
        }
        let count = self.keeper.due_count(now);
        let (words, rest) = self.words.ahead(alloc, count)?;
        let sent = self
            .keeper
            .tick(alloc, &self.board, &mut self.desk, now, &words)?;
        self.words = rest;
        Ok(sent)
    }

    /// The number of its next drawop on a page: one above the greatest of its own that is held or
    /// was heard of. None if that is 4,294,967,295, the last number.
    pub fn next_number(&self, page: PageId) -> Option<u32>
        ensures number { (host : Opened) → IsOpenAt self.now host → result ≡ next_number page host }
        ensures unreached { IfSome result (λ number. (host : Opened) → IsOpenAt self.now host →
            IsUnreached page host number) }
    {
        let last = self.keeper.known_number(&self.desk, page, self.keeper.me());
        last.checked_add(1)
    }
}

/// An empty board of `cells` cells, and its desk.
fn opened(alloc: Global, cells: u32) -> Result<(Board, Desk), AllocError>
    requires { IsCellCount cells }
    ensures owns { IfOk result (λ t. OwnsAll t.0 t.1) }
    ensures empty { IfOk result (λ t. held_of t.1 ≡ record { cells = cells; drawops = [] }) }
{
    match Board::open(alloc, cells) {
        Ok(parts) => Ok(parts),
        Err(OpenFault::Memory) => Err(AllocError),
        Err(OpenFault::Cells) => unreachable!(),
    }
}

/// A board takes one drawop through the desk that owns its rows. Answers what became of it: None if
/// the board has no cell for it. If an allocation fails, it holds what it held.
fn take(board: &Board, desk: &mut Desk, drawop: &Drawop) -> Result<Option<Reply>, AllocError>
    requires { OwnsAll board.now desk.old }
    ensures owns { OwnsAll board.now desk.new }
    ensures became { IfOk result
        (λ reply. outcome_in reply ≡ outcome_of desk.old.cells desk.old.seen drawop.now) }
    ensures held { OnOk result
        (held_of desk.new ≡ board_after (held_of desk.old) (drawop.now ∷ [])) }
    ensures err { OnErr result (held_of desk.new ≡ held_of desk.old) }
{
    match board.accept(desk, drawop) {
        Ok(reply) => Ok(Some(reply)),
        Err(BoardFault::NoRow) => Ok(None),
        Err(BoardFault::Memory) => Err(AllocError),
    }
}

/// Tells a keeper, at the moment of its last call, that these names arrived at a desk.
pub(crate) fn tell_arrived(keeper: &mut Keeper, desk: &Desk, names: &[Name])
    ensures { Keeps (Arrive keeper.old.moment (filter (holds desk.now.seen) names.now))
        keeper.old keeper.new }
{
    let now = keeper.moment();
    match keeper.arrived(desk, now, names) {
        Ok(()) => {}
        Err(_) => unreachable!(),
    }
}

/// Whether a random word is taken for a datagram that is heard: for a request, and for no other.
fn takes_word(datagram: &Datagram) -> bool
    ensures { result ≡ takes_word datagram.now }
{
    matches!(datagram, Datagram::Request { .. })
}
