//! Why the broker has no more for a channel, as the channel knows it.
ghost use Rattle.std.specs.Prelude.{◌≡◌, Option};
ghost use Rattle.broker_core.specs.declared.fault.TakeFault.{TakeFault as TakeFaultValue};
ghost use Rattle.blob_store.specs.Fetching.{inner_of};
ghost use Rattle.links.specs.Channel.{state_of};

use blob_store::{BlobStore, FetchingChannel};
use broker_core::TakeFault;
use links::SocketChannel;
use std::io::{Read, Write};
use workers::Channel;

/// A channel to which the broker may say that it has no more for it.
pub(crate) trait ChannelEnd {
    /// Why the broker has no more for the channel, if it said so.
    ghost why_ended: { Self → Option TakeFaultValue };

    /// Returns why the broker has no more for the channel, if it said so.
    fn ended(&self) -> Option<TakeFault>
        ensures exact { result ≡ why_ended self.now };
}

impl<R: Read, W: Write> ChannelEnd for SocketChannel<R, W> {
    ghost why_ended = { λ channel. (state_of R.remaining W.contents channel).ended };

    fn ended(&self) -> Option<TakeFault> {
        SocketChannel::ended(self)
    }
}

impl<C: Channel + ChannelEnd, S: BlobStore> ChannelEnd for FetchingChannel<C, S> {
    ghost why_ended = { λ channel. C.why_ended (inner_of channel) };

    fn ended(&self) -> Option<TakeFault> {
        self.channel().ended()
    }
}
