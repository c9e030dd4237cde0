//! Links: the addresses of the nodes of a `Vec`. Only this file makes and follows them.
ghost use Rattle.std.specs.Prelude.{◌≡◌, ℕ, ◌<◌, slice_get, Some, ⊤};
ghost use Rattle.std.specs.Borrow.{sem};
ghost use Rattle.std.specs.Mem.{type_size};
ghost use Rattle.std.specs.Vec.{vec_ptr, vec_capacity, vec_follows_item};
ghost use base.Fml.{feq};
ghost use denote.RawPtr.{InBlock};
ghost use denote.Sharing.{said};
ghost use Rattle.node_arena.specs.Addresses.{address_of, index_of, LeadsIn};

use std::alloc::{AllocError, Allocator};
use std::marker::{Model, PhantomData, Send, Sync};

/// The address of a node. A link owns nothing and has no type, so that a node may hold a link to another node.
pub struct Link {
    pub(crate) to: *mut u8,
}

impl Clone for Link {
    ghost is_clone = { λ x y. y ≡ x };

    ghost is_infallible = { λ _. ⊤ };

    fn clone(&self) -> Result<Link, AllocError> {
        Ok(*self)
    }
}

impl Copy for Link {}

unsafe impl Send for Link {}

unsafe impl Sync for Link {}

/// A value that stands for the size of an `N` in invariants. It takes no space.
#[derive(Drop)]
pub struct Stride<N> {
    mark: PhantomData<N>,
    ghost bytes: { ℕ },
}

impl<N> Model for Stride<N> {
    ghost also_owns = { λ s. feq ℕ s.bytes (type_size N.row) };

    ghost also_shares = { λ s _ κ. said (feq ℕ s.bytes (type_size N.row)) κ };
}

unsafe impl<N> Send for Stride<N> {}

impl<N> Stride<N> {
    /// Makes the value that stands for the size of an `N`.
    pub(crate) fn new() -> Stride<N>
        ensures { result.bytes ≡ type_size N.row }
    {
        Stride { mark: PhantomData }
    }

    /// Shows that the stride is the size of an `N`. Does nothing.
    pub(crate) fn measures(&self)
        ensures { self.now.bytes ≡ type_size N.row }
    {}
}

/// Returns the address of the node at `index`, which is within the capacity of `nodes`. The first node is at `first`.
pub(crate) fn address<N, A: Allocator>(nodes: &Vec<N, A>, first: *const N, index: usize) -> *mut u8
    requires { (first ≡ vec_ptr nodes.now) × (index < vec_capacity nodes.now) }
    ensures value { result ≡ address_of (vec_ptr nodes.now) (type_size N.row) index }
    ensures block { InBlock (vec_ptr nodes.now) }
{
    let node = unsafe { first.add(index) };
    node as *mut u8
}

/// Returns the node at the address `to`.
pub(crate) fn follow<N, A: Allocator>(nodes: &Vec<N, A>, to: *mut u8) -> &N
    requires { LeadsIn nodes.now (type_size N.row) to }
    ensures { slice_get nodes.now.items (index_of (vec_ptr nodes.now) (type_size N.row) to)
        ≡ Some result.now }
{
    let node = to as *const N;
    unsafe { &*node }
}

/// Returns the node at the address `to`, to write to.
pub(crate) fn follow_mut<N, A: Allocator>(nodes: &mut Vec<N, A>, to: *mut u8) -> &mut N
    requires { LeadsIn nodes.old (type_size N.row) to }
    ensures* writes_back { sem 𝓛 (vec_follows_item N.row A.row A.Allocator nodes.entry
        (index_of (vec_ptr nodes.old) (type_size N.row) to) result) }
    ensures value { slice_get nodes.old.items (index_of (vec_ptr nodes.old) (type_size N.row) to)
        ≡ Some result.now }
{
    let node = to as *mut N;
    unsafe { &mut *node }
}
