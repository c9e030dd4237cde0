//! The two uniques of an ask.
use mount_wire::Kept;

/// The two uniques of an ask that is under way: the kernel's own, and the one that the desk gave it. Beside them stands what
/// the kernel may keep of the answer.
#[derive(Clone, Copy, PartialEq, Eq)]
pub struct Pair {
    pub kernel: u64,
    pub desk: u64,
    pub kept: Kept,
}
