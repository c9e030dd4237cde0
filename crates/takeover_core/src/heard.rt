//! The answer to a message.
use crate::Message;

/// What a daemon does with a message that it hears.
#[derive(Drop, PartialEq, Eq)]
pub enum Heard {
    /// The message is not for this phase or session, and changes nothing.
    Ignored,
    /// The message is taken, and has no answer.
    Heard,
    /// The caller says this message.
    Say(Message),
    /// The caller makes the data, and then calls `Node::data_made`, `Node::parts_made` or `Node::data_failed`.
    MakeData {
        session: u32,
        generation: u64,
        version: u16,
    },
    /// The caller reads and restores the message's data, and then calls `Node::raised`.
    GotData {
        session: u32,
        generation: u64,
        version: u16,
    },
    /// The caller reads the message's part, and then calls `Node::fed`.
    GotPart {
        session: u32,
        generation: u64,
        version: u16,
        position: u32,
        count: u32,
    },
}
