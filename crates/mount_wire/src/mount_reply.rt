//! The bytes of a reply that tells a daemon's answer.
ghost use Rattle.std.specs.Prelude.{◌≡◌};

use crate::ReplyBytes;
use byte_codec::Bytes;
use std::marker::Model;

/// The bytes of a reply that tells a daemon's answer, which contracts see as a list. Those of a buffer stand in the memory
/// in which it came.
pub struct MountReply {
    kind: ReplyKind,
}

/// Where the bytes of a reply stand.
#[derive(Drop)]
enum ReplyKind {
    Short(ReplyBytes),
    Long(Bytes),
}

impl Drop for MountReply {
    fn drop(self) {
        let MountReply { kind: _ } = self;
    }
}

impl Model for MountReply {
    ghost use Rattle.std.specs.Prelude.{ℕ, List};
    ghost use Rattle.mount_wire.specs.Told.{bytes_of};

    ghost Value = { List ℕ };

    ghost view = { λ reply. bytes_of reply.kind };
}

impl MountReply {
    /// Makes a reply of at most 160 bytes.
    pub(crate) fn short(bytes: ReplyBytes) -> MountReply
        ensures bytes { result ≡ bytes }
    {
        MountReply {
            kind: ReplyKind::Short(bytes),
        }
    }

    /// Makes a reply of any length.
    pub(crate) fn long(bytes: Bytes) -> MountReply
        ensures bytes { result ≡ bytes }
    {
        MountReply {
            kind: ReplyKind::Long(bytes),
        }
    }

    /// Returns the bytes in their order.
    pub fn as_slice(&self) -> &[u8]
        ensures bytes { result.now ≡ self.now }
    {
        match &self.kind {
            ReplyKind::Short(bytes) => bytes.as_slice(),
            ReplyKind::Long(bytes) => bytes.as_slice(),
        }
    }
}
