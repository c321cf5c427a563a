//! The sender's part: arrivals come one at a time, and are sent as they come.
ghost use Rattle.std.specs.Prelude.{◌≡◌, ◌+◌, ◌-◌, ◌<◌, ◌^◌, true, false, [], OnOk, length};
ghost use Rattle.crossbeam_channel.specs.Claims.{view, IsSeatAt};
ghost use Rattle.crossbeam_channel.specs.Ends.{sends_on};
ghost use Rattle.wb_feed.specs.Inside.Channel.{channel_view, sends, IsComplete};
ghost use Rattle.wb_feed.specs.Inside.Arriving.{HasArrived};
ghost use Rattle.wb_feed.specs.Inside.Sent.{IsNext, IsSent, Stays};

use crate::arrivals::{Arrivals, note_next};
use crate::channel::{ChannelPass, ChannelSender, Cut, Message, Sends, Whole};
use std::alloc::{AllocError, Global};
use std::sync::Wait;
use wb_names::Drawop;

/// How far a batch has got: the channel and what is known of it, and what came so far.
#[derive(Drop)]
pub(crate) struct Feeding {
    pub(crate) channel: ChannelSender,
    pub(crate) pass: ChannelPass,
    pub(crate) arrived: Vec<Drawop>,
    /// Whether the channel is open: no message was handed back.
    pub(crate) going: bool,
    ghost seat: { IsSeatAt (sends_on channel) pass },
    ghost sent: { IsSent (view pass) arrived.items going },
}

impl Feeding {
    ghost use Rattle.wb_feed.specs.Inside.Feeding.{IsWith, IsMerged};

    /// Nothing came yet. It takes no memory.
    pub(crate) fn new(alloc: Global, channel: ChannelSender, pass: ChannelPass) -> Feeding
        requires seat { IsSeatAt (sends_on channel) pass }
        requires first { view pass ≡ channel_view 16 true [] [] }
        ensures channel { result.channel ≡ channel }
        ensures pass { result.pass ≡ pass }
        ensures open { (result.arrived.items ≡ []) × (result.going ≡ true) }
    {
        Feeding {
            channel,
            pass,
            arrived: Vec::new(alloc),
            going: true,
        }
    }

    /// Takes and sends all arrivals. After the first message that is handed back it sends none.
    pub(crate) fn feed<R: Wait, S: Arrivals>(
        &mut self,
        rt: &R,
        arrivals: &mut S,
    ) -> Result<(), AllocError>
        requires few { length self.old.arrived.items + S.most_to_come arrivals.old < 2 ^ 32 }
        ensures channel { self.new.channel ≡ self.old.channel }
        ensures same { Stays (view self.old.pass) (view self.new.pass) }
        ensures arrived { HasArrived S.gives S.most_to_come arrivals.old self.old.arrived.items
            arrivals.new self.new.arrived.items }
        ensures ended { OnOk result (S.has_ended arrivals.new ≡ true) }
    {
        while let Some((position, drawop)) = note_next(arrivals, &mut self.arrived)? {
            let message = Message::Take(position, drawop);
            self.going = send_one(rt, &self.channel, &mut self.pass, self.going, message);
        }
        Ok(())
    }

    /// What came.
    pub(crate) fn into_arrived(self) -> Vec<Drawop>
        ensures { result ≡ self.arrived }
    {
        let Feeding {
            channel: _,
            pass: _,
            arrived,
            going: _,
        } = self;
        arrived
    }

    /// Sends an end message for each of `workers` workers.
    pub(crate) fn end_all<R: Wait>(&mut self, rt: &R, workers: u32)
        ensures channel { self.new.channel ≡ self.old.channel }
        ensures arrived { self.new.arrived ≡ self.old.arrived }
        ensures pass { view self.new.pass ≡ view self.old.pass }
    {
        for _ in 0..workers {
            self.going = send_one(rt, &self.channel, &mut self.pass, self.going, Message::End);
        }
    }

    /// Cuts off a pass for a worker.
    pub(crate) fn cut(&mut self) -> ChannelPass
        requires { 1 < (view self.old.pass).parts }
        ensures theirs { IsSeatAt (sends_on self.old.channel) result
            × (view result ≡ channel_view 1 false [] []) }
        ensures left { let v = view self.old.pass in
            IsWith self.old (channel_view (v.parts - 1) v.sends v.sent v.got) self.new }
    {
        self.channel.another::<Cut>(&mut self.pass)
    }

    /// Takes a worker's pass back.
    pub(crate) fn absorb(&mut self, theirs: ChannelPass)
        requires { IsSeatAt (sends_on self.old.channel) theirs }
        ensures { IsMerged self.old (view theirs) self.new }
    {
        self.channel.absorb::<Cut>(&mut self.pass, theirs);
    }

    /// Learns that all passes are back, so that the first drawops sent were received, each once. It
    /// is a load of one word, for the proof alone.
    pub(crate) fn learn_all(&mut self)
        requires { (view self.old.pass).parts ≡ 16 }
        ensures all { IsComplete (view self.old.pass) }
        ensures same { IsWith self.old (view self.old.pass) self.new }
    {
        self.channel.learn_as::<Whole>(&mut self.pass);
    }
}

/// Sends the message while the channel is open. Answers whether it is still open.
fn send_one<R: Wait>(
    rt: &R,
    channel: &ChannelSender,
    pass: &mut ChannelPass,
    going: bool,
    message: Message,
) -> bool
    requires seat { IsSeatAt (sends_on channel.now) pass.old }
    requires sender { (view pass.old).sends ≡ true }
    requires next { going ≡ true → IsNext (view pass.old).sent message }
    ensures seat { IsSeatAt (sends_on channel.now) pass.new }
    ensures sent { result ≡ true
        → (going ≡ true) × (view pass.new ≡ sends (view pass.old) message) }
    ensures closed { result ≡ false → view pass.new ≡ view pass.old }
{
    if !going {
        return false;
    }
    match channel.send_as::<Sends, R>(rt, pass, message) {
        Ok(()) => true,
        Err(_) => false,
    }
}
