//! Where a worker takes asks, and posts replies.
ghost use Rattle.std.specs.Prelude.{◌≡◌, ◌∷◌, [], Bool, true};
ghost use Rattle.fuse_wire.specs.declared.request.Ask.{Ask as AskValue};
ghost use Rattle.fuse_wire.specs.declared.reply.Reply.{Reply as ReplyValue};
ghost use Rattle.workers.specs.Channel.{Reported, with_ask, with_replies};
ghost use Rattle.workers.specs.declared.channel.NextAsk.{NextAsk as TakenValue};
ghost use Rattle.workers.specs.declared.channel.NextAsk.TheVariants as took;
ghost use Rattle.workers.specs.declared.channel.Posted.{Posted as PostedValue};
ghost use Rattle.workers.specs.declared.channel.Posted.TheVariants as post;

use fuse_wire::{Ask, Reply};

/// The result of `Channel::take`.
#[derive(Drop)]
pub enum NextAsk {
    Ask(Ask),
    /// There is no ask now.
    Empty,
    /// There will be no ask.
    Stopped,
    /// The mount is over.
    Broken,
}

/// The result of `Channel::post`.
#[derive(Clone, Copy, PartialEq, Eq)]
pub enum Posted {
    Done,
    /// The mount is over.
    Broken,
}

/// The kernel's side for one worker. Each implementation says by `takes` and `posts` what its calls do, also what makes
/// a result Broken. If `reports` is true, `reported` says which asks were taken and which replies were posted.
pub trait Channel {
    /// Relates the channel before a `take`, the result, and the channel after the call.
    ghost takes: { Self → TakenValue → Self → Type 0 };

    /// Relates the channel before a `post`, the reply, the result, and the channel after the call.
    ghost posts: { Self → ReplyValue → PostedValue → Self → Type 0 };

    /// Whether `reported` says which asks were taken and which replies were posted.
    ghost reports: { Bool };

    /// The asks that were taken from the channel, and the replies that were posted to it.
    ghost reported: { Self → Reported };

    /// Takes the next ask.
    fn take(&mut self) -> NextAsk
        ensures takes { takes self.old result self.new }
        ensures taken { reports ≡ true → (ask : AskValue) → result ≡ took.Ask ask
            → reported self.new ≡ with_ask (reported self.old) ask }
        ensures empty { reports ≡ true → result ≡ took.Empty → reported self.new ≡ reported self.old }
        ensures stopped { reports ≡ true → result ≡ took.Stopped → reported self.new ≡ reported self.old };

    /// Posts the reply to an ask that was taken. If `takes_next`, the caller takes an ask next, whatever comes: so a channel may
    /// ask for that together with the reply.
    fn post(&mut self, reply: &Reply, takes_next: bool) -> Posted
        ensures posts { posts self.old reply.now result self.new }
        ensures posted { reports ≡ true → result ≡ post.Done
            → reported self.new ≡ with_replies (reported self.old) (reply.now ∷ []) };
}
