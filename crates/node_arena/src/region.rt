//! The nodes in their region of memory, and the links between them.
ghost use Rattle.std.specs.Prelude.{◌≡◌, ◌+◌, ◌<◌, ◌≤◌, ◌^◌, Some, None, IfOk, IsSome, is_some};
ghost use Rattle.std.specs.Borrow.{sem};
ghost use Rattle.node_arena.specs.Links.{updated, next_without, prev_without, next_with, prev_with};

use crate::links::{Link, Stride, address, follow, follow_mut};
use crate::node_content::NodeContent;
use std::alloc::{AllocError, Global};
use std::mem::size_of;

/// A node: its two neighbours in the list in which it stands, and the value that it holds, if any.
#[derive(Drop)]
pub struct ArenaNode<T> {
    prev: Link,
    next: Link,
    content: NodeContent<T>,
}

/// A node takes 24 bytes beside its value.
const _: () = prove!(size_of::<ArenaNode<u64>>() == 24 + 8);

/// The nodes, side by side in one block. A link to a node stays valid, since no node is added later.
#[derive(Drop)]
pub struct Region<T> {
    nodes: Vec<ArenaNode<T>>,
    stride: Stride<ArenaNode<T>>,
}

impl<T> Region<T> {
    ghost use Rattle.node_arena.specs.RegionLends.{lends_node, lends_value};
    ghost use Rattle.node_arena.specs.Region.{IsLaidOut, IsBlank, IsPlaced, Becomes, count_of, place_of, node_at, next_of, prev_of, value_of};

    /// Makes a block of `count` nodes without values. Each node leads back to the first, and on to the node before it.
    pub(crate) fn new(alloc: Global, count: usize) -> Result<Region<T>, AllocError>
        requires { (1 ≤ count) × (count < 2 ^ 32) }
        ensures { IfOk result (λ r. IsLaidOut r × (count_of r ≡ count) × IsBlank r) }
    {
        let mut nodes = Vec::with_capacity(alloc, count)?;
        let start = nodes.as_ptr();
        let first = Link {
            to: address(&nodes, start, 0),
        };
        let mut last = first;
        for index in 0..count {
            let content = NodeContent::Vacant {
                index: index as u32,
            };
            nodes.push_reserved(ArenaNode {
                prev: first,
                next: last,
                content,
            });
            last = Link {
                to: address(&nodes, start, index),
            };
        }
        Ok(Region {
            nodes,
            stride: Stride::new(),
        })
    }

    /// Returns a link to the node at `index`.
    pub(crate) fn link(&self, index: usize) -> Link
        requires { IsLaidOut self.now × (index < count_of self.now) }
        ensures { IsPlaced self.now result × (place_of self.now result ≡ index) }
    {
        self.stride.measures();
        Link {
            to: address(&self.nodes, self.nodes.as_ptr(), index),
        }
    }

    /// Returns the node that `link` leads to.
    fn node(&self, link: Link) -> &ArenaNode<T>
        requires { IsLaidOut self.now × IsPlaced self.now link }
        ensures { node_at self.now (place_of self.now link) ≡ Some result.now }
    {
        self.stride.measures();
        follow(&self.nodes, link.to)
    }

    /// Returns the node that `link` leads to, to write to.
    fn node_mut(&mut self, link: Link) -> &mut ArenaNode<T>
        requires { IsLaidOut self.old × IsPlaced self.old link }
        ensures* writes_back { sem 𝓛 (lends_node T.row self.entry (place_of self.old link) result) }
        ensures value { node_at self.old (place_of self.old link) ≡ Some result.now }
    {
        self.stride.measures();
        follow_mut(&mut self.nodes, link.to)
    }

    /// Returns the index of the node that `link` leads to.
    pub(crate) fn index(&self, link: Link) -> u32
        requires { IsLaidOut self.now × IsPlaced self.now link }
        ensures { result ≡ place_of self.now link }
    {
        self.node(link).content.index()
    }

    /// Returns a link to the node after the one that `link` leads to.
    pub(crate) fn next(&self, link: Link) -> Link
        requires { IsLaidOut self.now × IsPlaced self.now link }
        ensures { IsPlaced self.now result
            × (place_of self.now result ≡ next_of self.now (place_of self.now link)) }
    {
        self.node(link).next
    }

    /// Returns a link to the node before the one that `link` leads to.
    pub(crate) fn prev(&self, link: Link) -> Link
        requires { IsLaidOut self.now × IsPlaced self.now link }
        ensures { IsPlaced self.now result
            × (place_of self.now result ≡ prev_of self.now (place_of self.now link)) }
    {
        self.node(link).prev
    }

    /// Makes the node at `link` lead on to the node at `to`.
    pub(crate) fn set_next(&mut self, link: Link, to: Link)
        requires { IsLaidOut self.old × IsPlaced self.old link × IsPlaced self.old to }
        ensures { Becomes self.old self.new
            (updated (next_of self.old) (place_of self.old link) (place_of self.old to))
            (prev_of self.old) (value_of self.old) }
    {
        self.node_mut(link).next = to;
    }

    /// Makes the node at `link` lead back to the node at `to`.
    fn set_prev(&mut self, link: Link, to: Link)
        requires { IsLaidOut self.old × IsPlaced self.old link × IsPlaced self.old to }
        ensures { Becomes self.old self.new
            (next_of self.old) (updated (prev_of self.old) (place_of self.old link) (place_of self.old to))
            (value_of self.old) }
    {
        self.node_mut(link).prev = to;
    }

    /// Takes the node at `link` out of the list in which it stands. The node's own links are unchanged.
    pub(crate) fn unlink(&mut self, link: Link)
        requires { IsLaidOut self.old × IsPlaced self.old link }
        ensures { let n = next_of self.old in let p = prev_of self.old in let k = place_of self.old link in
            Becomes self.old self.new (next_without n p k) (prev_without n p k) (value_of self.old) }
    {
        let prev = self.prev(link);
        let next = self.next(link);
        self.set_next(prev, next);
        self.set_prev(next, prev);
    }

    /// Puts the node at `link`, which stands in no list, right after the node at `at`.
    pub(crate) fn link_after(&mut self, at: Link, link: Link)
        requires { IsLaidOut self.old × IsPlaced self.old at × IsPlaced self.old link }
        ensures { let n = next_of self.old in let p = prev_of self.old in
            let a = place_of self.old at in let k = place_of self.old link in
            Becomes self.old self.new (next_with n a k) (prev_with n p a k) (value_of self.old) }
    {
        let next = self.next(at);
        self.set_next(link, next);
        self.set_prev(link, at);
        self.set_prev(next, link);
        self.set_next(at, link);
    }

    /// Returns whether the node at `link` holds a value.
    pub(crate) fn is_held(&self, link: Link) -> bool
        requires { IsLaidOut self.now × IsPlaced self.now link }
        ensures { result ≡ is_some (value_of self.now (place_of self.now link)) }
    {
        self.node(link).content.is_held()
    }

    /// Returns the value that the node at `link` holds.
    pub(crate) fn value(&self, link: Link) -> &T
        requires { IsLaidOut self.now × IsPlaced self.now link
            × IsSome (value_of self.now (place_of self.now link)) }
        ensures { value_of self.now (place_of self.now link) ≡ Some result.now }
    {
        self.node(link).content.value()
    }

    /// Returns the value that the node at `link` holds, to write to.
    pub(crate) fn value_mut(&mut self, link: Link) -> &mut T
        requires { IsLaidOut self.old × IsPlaced self.old link
            × IsSome (value_of self.old (place_of self.old link)) }
        ensures* writes_back { sem 𝓛 (lends_value T.row self.entry (place_of self.old link) result) }
        ensures value { value_of self.old (place_of self.old link) ≡ Some result.now }
    {
        self.node_mut(link).content.value_mut()
    }

    /// Moves the value out of the node at `link`.
    pub(crate) fn take(&mut self, link: Link) -> T
        requires { IsLaidOut self.old × IsPlaced self.old link
            × IsSome (value_of self.old (place_of self.old link)) }
        ensures value { value_of self.old (place_of self.old link) ≡ Some result }
        ensures emptied { Becomes self.old self.new
            (next_of self.old) (prev_of self.old)
            (updated (value_of self.old) (place_of self.old link) None) }
    {
        self.node_mut(link).content.take()
    }

    /// Moves a value into the node at `link`, which holds none.
    pub(crate) fn put(&mut self, link: Link, value: T)
        requires { IsLaidOut self.old × IsPlaced self.old link
            × (value_of self.old (place_of self.old link) ≡ None) }
        ensures { Becomes self.old self.new
            (next_of self.old) (prev_of self.old)
            (updated (value_of self.old) (place_of self.old link) (Some value)) }
    {
        self.node_mut(link).content.put(value)
    }
}
