//! The blobs that git gave.
ghost use Rattle.std.specs.Prelude.{◌≡◌, length, Some, IfErr, IfOk};
ghost use Rattle.std.specs.Option.{ForSome};
ghost use Rattle.git_objects.specs.Content.{IsNoBlob, IsSame, blob_name, known_bytes};

use crate::content::Content;
use crate::fault::ObjectFault;
use crate::name::name_of;
use crate::sought::Sought;
use eden_base::NoMemory;
use std::alloc::Global;
use std::fs::File;
use std::sync::Arc;

/// A blob that git gave: its name and its size, by which it was asked for, and its bytes. Those in memory have that name.
#[derive(Drop)]
pub(crate) struct Blob {
    pub object: [u8; 20],
    pub size: u64,
    pub content: Content,
    ghost is_named: { ForSome (known_bytes content) (λ bytes. blob_name bytes ≡ object) },
    ghost is_whole: { ForSome (known_bytes content) (λ bytes. length bytes ≡ size) },
}

impl Blob {
    /// Makes the blob of these bytes. Fails if they have another name than was asked for.
    pub(crate) fn of_bytes(
        alloc: Global,
        sought: Sought,
        bytes: Vec<u8>,
    ) -> Result<Blob, ObjectFault>
        requires whole { length bytes.items ≡ sought.size }
        ensures object { IfOk result (λ blob. blob.object ≡ sought.object) }
        ensures size { IfOk result (λ blob. blob.size ≡ sought.size) }
        ensures bytes { IfOk result (λ blob. known_bytes blob.content ≡ Some bytes.items) }
        ensures refused { IfErr result (IsNoBlob sought.object bytes.items) }
    {
        let name = name_of(alloc, bytes.as_slice())?;
        if name != sought.object {
            return Err(ObjectFault::Damaged);
        }
        let Ok(bytes) = Arc::new(alloc, bytes) else {
            return Err(ObjectFault::NoMemory);
        };
        let object = sought.object;
        Ok(Blob {
            object,
            size: sought.size,
            content: Content::InMemory(bytes),
        })
    }

    /// Makes the blob that was asked for, of a file to which it was written or is being written.
    pub(crate) fn of_file(sought: Sought, file: Arc<File>) -> Blob
        ensures object { result.object ≡ sought.object }
        ensures size { result.size ≡ sought.size }
    {
        let object = sought.object;
        Blob {
            object,
            size: sought.size,
            content: Content::InFile(file),
        }
    }

    /// Returns one more owner of the same blob.
    pub(crate) fn share(&self) -> Result<Blob, NoMemory>
        ensures object { IfOk result (λ blob. blob.object ≡ self.now.object) }
        ensures size { IfOk result (λ blob. blob.size ≡ self.now.size) }
        ensures content { IfOk result (λ blob. IsSame self.now.content blob.content) }
    {
        let object = self.object;
        Ok(Blob {
            object,
            size: self.size,
            content: self.content.share()?,
        })
    }
}
