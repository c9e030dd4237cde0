//! The line of a manifest that has the bytes of an extent.
ghost use Rattle.std.specs.Prelude.{◌≡◌, ◌+◌, ◌<◌, ◌^◌, ◌↔◌, true, false, is_some, IfSome, IsTrue, None, Some};
ghost use Rattle.std.specs.Option.{option_copied};
ghost use Rattle.manifest.specs.Manifest.{line_of};
ghost use Rattle.blob_store.specs.FileBlobs.{HasPart, IsWithin, has_content};

use eden_base::Kind;
use fuse_wire::Extent;
use manifest::{Line, Manifest, line_of};

/// Returns whether a file of this kind has bytes: a regular file, or a symbolic link, whose bytes are its target.
fn has_content(kind: Kind) -> bool
    ensures { result ≡ has_content kind }
{
    match kind {
        Kind::File | Kind::Link => true,
        Kind::Dir => false,
    }
}

/// Returns whether a line is that of a regular file or a link which has all bytes of `extent`.
fn has_part(line: &Line, extent: &Extent) -> bool
    ensures part { IsTrue result ↔ HasPart line.now extent.now }
    ensures fits { result ≡ true → extent.now.offset + extent.now.len < 2 ^ 64 }
{
    has_content(line.kind)
        && extent.offset <= line.size
        && u64::from(extent.len) <= line.size - extent.offset
}

/// Returns the line of the extent's file, if it has all bytes of the extent.
pub fn line_within<'a>(manifest: &'a Manifest, extent: &Extent) -> Option<&'a Line>
    ensures line { IfSome result (λ line. line_of manifest.now.lines extent.now.file ≡ Some line.now) }
    ensures part { IfSome result (λ line. HasPart line.now extent.now) }
    ensures within { IfSome result (λ line. IsWithin manifest.now extent.now) }
    ensures none { result ≡ None → IsWithin manifest.now extent.now → ⊥ }
    ensures fits { IfSome result (λ line. extent.now.offset + extent.now.len < 2 ^ 64) }
{
    let line = line_of(manifest.lines(), extent.file)?;
    if has_part(line, extent) {
        Some(line)
    } else {
        None
    }
}
