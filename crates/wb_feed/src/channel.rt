//! The channel between the caller's thread and the workers, its messages, and the rule that it is
//! under.
ghost use Rattle.std.specs.Prelude.{◌≡◌};

use crossbeam_channel::protocol::{Join, Lesson, Outcome, Protocol, Split};
use crossbeam_channel::{Pass, RuledReceiver, RuledSender};
use std::collections::LinkedList;
use wb_names::Drawop;

/// An arrival with its position in the batch, from 0; or the end, of which each worker gets one.
#[derive(Clone, Copy)]
pub(crate) enum Message {
    Take(u32, Drawop),
    End,
}

/// What a pass of the channel knows: its parts, of which there are 16 in all, so that a pass with
/// all of them knows that no other received anything; whether it sends; the drawops that were sent;
/// and the messages that it received, in order. No value of it is ever made.
pub(crate) struct ChannelView {
    pub parts: u64,
    pub sends: bool,
    pub sent: LinkedList<Drawop>,
    pub got: LinkedList<Message>,
}

/// The rule: each message is received once at most, in the order in which they were sent.
pub(crate) struct EachOnce;

impl Protocol<Message, ChannelView> for EachOnce {
    ghost use Rattle.std.specs.Prelude.{true, []};
    ghost use Rattle.wb_feed.specs.Inside.Channel.{channel_view, Kept};

    ghost holds = { λ items views. Kept items views };

    ghost first = { channel_view 16 true [] [] };
}

/// The step of a send.
pub(crate) struct Sends;

impl Outcome<Message, ChannelView> for Sends {
    ghost use Rattle.wb_feed.specs.Inside.Channel.{sends};

    ghost then = { λ v x w. w ≡ sends v x };
}

impl Lesson<Message, ChannelView> for Sends {
    ghost fact = { λ v items. Unit {0} };
}

/// What the sender learns once its pass has every part.
pub(crate) struct Whole;

impl Lesson<Message, ChannelView> for Whole {
    ghost use Rattle.wb_feed.specs.Inside.Channel.{IsComplete};

    ghost fact = { λ v items. IsComplete v };
}

/// The step of a receive: the message comes after all that this pass received before.
pub(crate) struct Receives;

impl Outcome<Message, ChannelView> for Receives {
    ghost use Rattle.wb_feed.specs.Inside.Channel.{receives, Follows};

    ghost then = { λ v x w. (w ≡ receives v x) × Follows v.got x };
}

impl Lesson<Message, ChannelView> for Receives {
    ghost fact = { λ v items. Unit {0} };
}

/// Cuts off a pass for a worker, and takes it back.
pub(crate) struct Cut;

impl Split<ChannelView> for Cut {
    ghost use Rattle.std.specs.Prelude.{◌-◌, false, []};
    ghost use Rattle.wb_feed.specs.Inside.Channel.{channel_view};

    ghost left = { λ v. channel_view (v.parts - 1) v.sends v.sent v.got };

    ghost right = { λ v. channel_view 1 false [] [] };
}

impl Join<ChannelView> for Cut {
    ghost use Rattle.std.specs.Prelude.{◌+◌, ◌++◌, false, []};
    ghost use Rattle.wb_feed.specs.Inside.Channel.{channel_view};

    ghost both = { λ v w. channel_view (v.parts + w.parts) v.sends v.sent (v.got ++ w.got) };

    ghost spent = { channel_view 0 false [] [] };
}

/// The end that sends.
pub(crate) type ChannelSender = RuledSender<Message, ChannelView, EachOnce>;

/// The end that receives, which all workers share.
pub(crate) type ChannelReceiver = RuledReceiver<Message, ChannelView, EachOnce>;

/// What a thread knows of the channel.
pub(crate) type ChannelPass = Pass<Message, ChannelView>;
