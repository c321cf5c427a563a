//! A self-managing member: it does what its policy judges, and hands out what is to be sent.
ghost use Rattle.std.specs.Prelude.{◌≡◌, ◌≤◌, ◌<◌};
ghost use Rattle.wb_member.specs.Holding.{IsOpenAt};
ghost use Rattle.wb_member.specs.Opened.{Opened, present};
ghost use Rattle.wb_keeping.specs.Performing.{IsKeptAt, Keeping, due};
ghost use Rattle.wb_policy.specs.Policy.{begun};
ghost use Rattle.wb_policy.specs.declared.limits.TheConstants.{LISTEN_LIMIT};

mod asking;
mod calls;
mod hearing;
pub(crate) mod lines;
mod showing;
mod telling;

use std::marker::Model;
use wb_board::Reply;
use wb_codec::Datagram;
use wb_member::Member;
use wb_policy::{Policy, sooner};

/// A member of a session, and the policy that manages it: it is handed datagrams, moments and
/// drawings, and gives what is to be sent.
///
/// What it does is the list of lines of `specs/Kept.antt`, performed by the member. So the
/// contracts speak of each member at which the code may be, as those of `Member` do.
#[derive(Drop)]
pub struct KeptMember {
    member: Member,
    policy: Policy,
}

impl Model for KeptMember {
    ghost use Rattle.wb_keeping.specs.Performing.{KeptValue};

    ghost Value = { KeptValue };

    ghost view = { λ k. record { member = k.member; policy = k.policy } };
}

/// What follows from a call.
#[derive(Drop)]
pub struct KeptDone {
    /// What is to be sent, in this order.
    pub sent: Vec<Datagram>,
    /// What became of the drawop that came or was drawn: None if the board has no cell for it, or
    /// no drawop came.
    pub became: Option<Reply>,
}

impl KeptMember {
    /// A member becomes self-managing at its present moment. The reports of all members together
    /// may take `rate` bytes a second, at least 1. For `listen` microseconds, below 2^32, nothing
    /// is added. The seed is that of the member.
    pub fn keep(member: Member, rate: u64, listen: u64, seed: u64) -> KeptMember
        requires rate { 1 ≤ rate }
        requires listen { listen < LISTEN_LIMIT }
        ensures { (host : Opened) → IsOpenAt member host → IsKeptAt result
            (record { host = host; policy = begun (present host) rate listen seed }) }
    {
        let policy = Policy::new(member.moment(), rate, listen, seed);
        KeptMember { member, policy }
    }

    /// When it has something to do: the next tick.
    pub fn next_due(&self) -> u64
        ensures { (k : Keeping) → IsKeptAt self.now k → result ≡ due k }
    {
        sooner(self.policy.due(), self.member.next_due())
    }
}
