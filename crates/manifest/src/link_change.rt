//! How a tree's names differ from those of its manifest.
use eden_base::{FileId, Name};

/// A name in a directory that leads to another file than the manifest says, or to none although the manifest says one.
#[derive(Drop)]
pub struct LinkChange {
    pub dir: FileId,
    pub name: Name,
    /// The file to which the name leads now, if any.
    pub target: Option<FileId>,
}
