//! A channel that looks again if it found no ask.
ghost use Rattle.std.specs.Prelude.{◌≡◌, true};
ghost use Rattle.daemon_process.specs.Patience.{Looks};
ghost use Rattle.fuse_wire.specs.declared.request.Ask.{Ask as AskValue};
ghost use Rattle.workers.specs.Channel.{with_ask};
ghost use Rattle.workers.specs.declared.channel.NextAsk.TheVariants as took;

use crate::channel_end::ChannelEnd;
use crate::waiting::WaitingChannel;
use broker_core::TakeFault;
use fuse_wire::Reply;
use std::sync::Arc;
use std::time::Duration;
use workers::{Channel, NextAsk, Posted, Stop};

/// How often a channel is asked again before a worker's round ends.
const LOOKS: usize = 9;

/// A channel that looks again if it found no ask, unless the round is asked to stop. So a round outlasts a short
/// silence. Threads start with each round, and a round for each silence would cost an idle daemon 2 % of a processor.
#[derive(Drop)]
pub(crate) struct Patient<C> {
    channel: C,
    stop: Arc<Stop>,
}

impl<C: Channel> Patient<C> {
    /// Makes a channel patient until a stop is asked.
    pub(crate) fn new(channel: C, stop: Arc<Stop>) -> Patient<C>
        ensures channel { result.channel ≡ channel }
        ensures stop { result.stop ≡ stop }
    {
        Patient { channel, stop }
    }

    /// Sets the stop of another round, which it looks at from now on.
    pub(crate) fn set_stop(&mut self, stop: Arc<Stop>)
        ensures channel { self.new.channel ≡ self.old.channel }
        ensures stop { self.new.stop ≡ stop }
    {
        self.stop = stop;
    }

    /// Takes the next ask. If there is none, looks again up to `LOOKS` times, as long as no stop is asked.
    fn look(&mut self) -> NextAsk
        ensures looks { Looks C.takes self.old.channel result self.new.channel }
        ensures stop { self.new.stop ≡ self.old.stop }
        ensures taken { C.reports ≡ true → (ask : AskValue) → result ≡ took.Ask ask
            → C.reported self.new.channel ≡ with_ask (C.reported self.old.channel) ask }
        ensures empty { C.reports ≡ true → result ≡ took.Empty
            → C.reported self.new.channel ≡ C.reported self.old.channel }
        ensures stopped { C.reports ≡ true → result ≡ took.Stopped
            → C.reported self.new.channel ≡ C.reported self.old.channel }
    {
        for _again in 0..LOOKS {
            match self.channel.take() {
                NextAsk::Empty if !self.stop.asked() => {}
                taken => return taken,
            }
        }
        self.channel.take()
    }
}

impl<C: Channel> Channel for Patient<C> {
    ghost takes = { λ before taken after. Looks C.takes before.channel taken after.channel };

    ghost posts = { λ before reply posted after. C.posts before.channel reply posted after.channel };

    ghost reports = { C.reports };

    ghost reported = { λ patient. C.reported patient.channel };

    fn take(&mut self) -> NextAsk {
        self.look()
    }

    fn post(&mut self, reply: &Reply, takes_next: bool) -> Posted {
        self.channel.post(reply, takes_next)
    }
}

impl<C: WaitingChannel> WaitingChannel for Patient<C> {
    ghost waiting = { λ patient. C.waiting patient.channel };

    fn waiting(&self) -> usize {
        self.channel.waiting()
    }

    fn post_ready(&mut self, longest: Duration) -> Posted {
        self.channel.post_ready(longest)
    }

    fn finish(&mut self, longest: Duration) -> Posted {
        self.channel.finish(longest)
    }
}

impl<C: ChannelEnd> ChannelEnd for Patient<C> {
    ghost why_ended = { λ patient. C.why_ended patient.channel };

    fn ended(&self) -> Option<TakeFault> {
        self.channel.ended()
    }
}
