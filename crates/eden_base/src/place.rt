//! Where a numbered file stands.
use crate::{FileId, Name, Number};

/// Where the file of a number stands: under a name in a directory, or nowhere any more.
#[derive(Drop)]
pub enum Place {
    /// Under `name`, in the directory that has the number `parent`.
    Linked { parent: Number, name: Name },
    /// Nowhere: `file` lost its name while the kernel held its number.
    Unlinked { file: FileId },
}
