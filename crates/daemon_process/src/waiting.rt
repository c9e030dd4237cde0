//! Replies that wait in channels for the bytes of files, over rounds.
ghost use Rattle.std.specs.Prelude.{◌≡◌, ℕ, length};
ghost use Rattle.std.specs.Duration.{as_nanos};
ghost use Rattle.blob_store.specs.Fetching.{waiting_of};
ghost use Rattle.workers.specs.declared.channel.Posted.TheVariants as post;
ghost use Rattle.daemon_process.specs.Waiting.{has_waiting, share_of};

use blob_store::{BlobStore, FetchingChannel};
use std::time::Duration;
use workers::{Channel, Posted};

/// How long a daemon that ends waits for all bytes that replies wait for, in milliseconds.
const LONGEST: u64 = 1000;

/// How long a daemon that drains waits for them at a time, in milliseconds: in between it looks whether the takeover goes on.
const SLICE: u64 = 20;

/// A channel in which replies may wait for their bytes.
pub(crate) trait WaitingChannel {
    /// How many replies wait.
    ghost waiting: { Self → ℕ };

    /// Returns how many replies wait.
    fn waiting(&self) -> usize
        ensures exact { result ≡ waiting self.now };

    /// Posts the replies whose bytes have come. Each read is waited for, for `longest` at most.
    fn post_ready(&mut self, longest: Duration) -> Posted;

    /// Posts all replies that wait. Each read gets `longest` for that; one that is not over then fails.
    fn finish(&mut self, longest: Duration) -> Posted
        ensures none { result ≡ post.Done → waiting self.new ≡ 0 };
}

impl<C: Channel, S: BlobStore> WaitingChannel for FetchingChannel<C, S> {
    ghost waiting = { λ channel. length (waiting_of channel) };

    fn waiting(&self) -> usize {
        FetchingChannel::waiting(self)
    }

    fn post_ready(&mut self, longest: Duration) -> Posted {
        FetchingChannel::post_ready(self, longest)
    }

    fn finish(&mut self, longest: Duration) -> Posted {
        FetchingChannel::finish(self, longest)
    }
}

/// Returns whether replies wait in one of these channels.
pub(crate) fn has_waiting<C: WaitingChannel>(channels: &[C]) -> bool
    ensures exact { result ≡ has_waiting C.waiting channels.now }
{
    channels.iter().any(|channel| channel.waiting() > 0)
}

/// Posts all replies that wait in these channels, within a second. Returns whether none of the channels was broken.
pub(crate) fn finish_all<C: WaitingChannel>(channels: &mut Vec<C>) -> bool {
    let longest = share_of(LONGEST, count_of(channels.as_slice()));
    for channel in channels.iter_mut() {
        if let Posted::Broken = channel.finish(longest) {
            return false;
        }
    }
    true
}

/// Posts the replies in these channels whose bytes come within a moment. Returns whether none of the channels was broken.
pub(crate) fn post_all_ready<C: WaitingChannel>(channels: &mut Vec<C>) -> bool {
    let longest = share_of(SLICE, count_of(channels.as_slice()));
    for channel in channels.iter_mut() {
        if let Posted::Broken = channel.post_ready(longest) {
            return false;
        }
    }
    true
}

/// Returns how many replies wait in these channels.
fn count_of<C: WaitingChannel>(channels: &[C]) -> usize {
    channels.iter().fold(0usize, |count, channel| {
        count.saturating_add(channel.waiting())
    })
}

/// Returns how long the read of each of `count` replies gets, so that all of them get so many milliseconds at most.
fn share_of(milliseconds: u64, count: usize) -> Duration
    ensures share { as_nanos result ≡ share_of milliseconds count }
{
    Duration::from_millis(milliseconds / (count as u64).max(1))
}
