//! The content of a node.
ghost use Rattle.std.specs.Prelude.{◌≡◌, Some, None, IsSome, is_some};
ghost use Rattle.std.specs.Borrow.{sem};
ghost use Rattle.node_arena.specs.Content.{index_in, value_in};

use std::mem::replace;

/// The content of a node: its index, and its value if it holds one. The index and the flag of the variant take eight
/// bytes together.
#[derive(Drop)]
pub enum NodeContent<T> {
    Vacant { index: u32 },
    Held { index: u32, value: T },
}

impl<T> NodeContent<T> {
    ghost use Rattle.node_arena.specs.ContentLends.{lends_value};

    /// Returns the index of the node.
    pub(crate) fn index(&self) -> u32
        ensures { result ≡ index_in self.now }
    {
        match self {
            NodeContent::Vacant { index } => *index,
            NodeContent::Held { index, value: _ } => *index,
        }
    }

    /// Returns whether the node holds a value.
    pub(crate) fn is_held(&self) -> bool
        ensures { result ≡ is_some (value_in self.now) }
    {
        match self {
            NodeContent::Vacant { index: _ } => false,
            NodeContent::Held { index: _, value: _ } => true,
        }
    }

    /// Returns the value, which the node has to hold.
    pub(crate) fn value(&self) -> &T
        requires { IsSome (value_in self.now) }
        ensures { value_in self.now ≡ Some result.now }
    {
        match self {
            NodeContent::Held { index: _, value } => value,
            NodeContent::Vacant { index: _ } => unreachable!(),
        }
    }

    /// Returns the value, to write to.
    pub(crate) fn value_mut(&mut self) -> &mut T
        requires { IsSome (value_in self.old) }
        ensures* writes_back { sem 𝓛 (lends_value T.row self.entry result) }
        ensures value { value_in self.old ≡ Some result.now }
    {
        match self {
            NodeContent::Held { index: _, value } => value,
            NodeContent::Vacant { index: _ } => unreachable!(),
        }
    }

    /// Moves the value out.
    pub(crate) fn take(&mut self) -> T
        requires { IsSome (value_in self.old) }
        ensures value { value_in self.old ≡ Some result }
        ensures index { index_in self.new ≡ index_in self.old }
        ensures emptied { value_in self.new ≡ None }
    {
        let index = self.index();
        match replace(self, NodeContent::Vacant { index }) {
            NodeContent::Held { index: _, value } => value,
            NodeContent::Vacant { index: _ } => unreachable!(),
        }
    }

    /// Moves a value in. The node has to hold none.
    pub(crate) fn put(&mut self, value: T)
        requires { value_in self.old ≡ None }
        ensures index { index_in self.new ≡ index_in self.old }
        ensures filled { value_in self.new ≡ Some value }
    {
        let index = self.index();
        match replace(self, NodeContent::Held { index, value }) {
            NodeContent::Vacant { index: _ } => {}
            NodeContent::Held { index: _, value: _ } => unreachable!(),
        }
    }
}
