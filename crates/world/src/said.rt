//! What daemons say to one another, and what they hear.
ghost use Rattle.std.specs.Prelude.{◌≡◌, ◌<◌, ◌≤◌, ◌+◌, ◌++◌, IfSome, length, position, vec_len, vec_capacity};
ghost use Rattle.daemon.specs.Saying.{turned, what_is_said};
ghost use Rattle.world.specs.State.{ChangesAt, is_data_of};
ghost use Rattle.world.specs.Step.{told_reaction};

use daemon::{Daemon, Happened, Reaction, Turn};
use takeover_core::Message;

/// Makes the daemon at `index` what `turn` says that it becomes, and returns the reaction of `turn`.
pub(crate) fn let_turn(daemons: &mut Vec<Daemon>, index: usize, turn: Turn) -> Reaction
    requires within { index < vec_len daemons.old }
    ensures reacts { result ≡ turn.reaction }
    ensures turns { ChangesAt (λ was later. later ≡ turned was turn) daemons.old.items index daemons.new.items }
{
    let hearer = &mut daemons[index];
    hearer.turn(turn)
}

/// Appends the messages that `reaction` says to `messages`. Returns what happened, with the position of the first of
/// them.
pub(crate) fn say(messages: &mut Vec<Message>, reaction: Reaction) -> Happened
    requires room { vec_len messages.old + length (what_is_said reaction) ≤ vec_capacity messages.old }
    ensures told { result ≡ told_reaction (vec_len messages.old) reaction }
    ensures said { messages.new.items ≡ messages.old.items ++ what_is_said reaction }
{
    match reaction {
        Reaction::Ignores => Happened::Ignored,
        Reaction::Accepts => Happened::Heard,
        Reaction::Says(said, others) => {
            messages.push_reserved(said);
            let position = messages.len();
            others.append_to(messages);
            Happened::Said(position)
        }
    }
}

/// Returns the index of the first message that is data of this generation, if there is one.
pub(crate) fn index_of_data(messages: &[Message], generation: u64) -> Option<usize>
    ensures index { result ≡ position (is_data_of generation) messages.now }
    ensures within { IfSome result (λ index. index < length messages.now) }
{
    messages
        .iter()
        .position(|message| is_data(message, generation))
}

/// Returns whether `message` is data of this generation: all of the data, or a part.
fn is_data(message: &Message, generation: u64) -> bool
    ensures value { result ≡ is_data_of generation message.now }
{
    match message {
        Message::Data { generation: at, .. } | Message::Part { generation: at, .. } => {
            *at == generation
        }
        _ => false,
    }
}
