//! A list of messages, which is consumed from the front.
ghost use Rattle.std.specs.Prelude.{◌≡◌, ◌+◌, ◌^◌, ◌<◌, ◌≤◌, [], ◌∷◌, ◌++◌, length, vec_len, vec_capacity, MatchOption};

use std::collections::VecDeque;
use std::marker::Model;
use takeover_core::Message;

/// Messages in the order in which they are said. Clauses see them as a list.
pub struct Messages {
    list: Option<VecDeque<Message>>,
}

impl Drop for Messages {
    fn drop(self) {
        let Messages { list: _ } = self;
    }
}

impl Model for Messages {
    ghost use Rattle.std.specs.Prelude.{List, []};
    ghost use Rattle.std.specs.Option.{option_map_or};
    ghost use Rattle.takeover_core.specs.declared.message.Message.{Message};

    ghost Value = { List Message };

    ghost view = { λ messages. option_map_or (λ list. list.items) messages.list [] };
}

impl Messages {
    /// Makes an empty list of messages. It takes no memory.
    pub fn none() -> Messages
        ensures none { result ≡ [] }
    {
        Messages { list: None }
    }

    /// Makes messages of `list`, in the memory of `list`.
    pub fn of(list: Vec<Message>) -> Messages
        ensures of { result ≡ list.items }
    {
        Messages {
            list: Some(VecDeque::from_vec(list)),
        }
    }

    /// Returns how many messages there are.
    pub fn len(&self) -> usize
        ensures len { result ≡ length self.now }
        ensures fits { result < 2 ^ 63 }
    {
        match &self.list {
            Some(list) => list.len(),
            None => 0,
        }
    }

    /// Removes the first message and returns it, if there is one.
    pub fn next(&mut self) -> Option<Message>
        ensures next { MatchOption result ((self.old ≡ []) × (self.new ≡ []))
            (λ message. self.old ≡ message ∷ self.new) }
    {
        match &mut self.list {
            Some(list) => list.pop_front(),
            None => None,
        }
    }

    /// Appends the messages to `others`, which has room for them.
    pub fn append_to(self, others: &mut Vec<Message>)
        requires room { vec_len others.old + length self ≤ vec_capacity others.old }
        ensures appended { others.new.items ≡ others.old.items ++ self }
    {
        let Messages { list } = self;
        if let Some(list) = list {
            put_behind(others, list.into_vec());
        }
    }
}

/// Appends `list` to `others`, which has room for it.
fn put_behind(others: &mut Vec<Message>, list: Vec<Message>)
    requires room { vec_len others.old + vec_len list ≤ vec_capacity others.old }
    ensures appended { others.new.items ≡ others.old.items ++ list.items }
{
    let mut list = list;
    let _has_room = others.append(&mut list);
}
