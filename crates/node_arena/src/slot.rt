//! The name of a node.

/// Names a node of a `NodeArena` while the node holds a value. After a removal, the slot may be given out again. A
/// caller may keep the index alone, which makes the same slot again.
#[derive(Clone, Copy, PartialEq, Eq)]
pub struct Slot {
    pub index: u32,
}
