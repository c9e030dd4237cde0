//! The image of what a daemon serves, and the name that an image gives to a manifest.
ghost use Rattle.std.specs.Prelude.{◌≡◌, ◌↔◌, IfOk, IsTrue};
ghost use Rattle.std.specs.List.{AllByRecursion};
ghost use Rattle.entry_table.specs.EntryPlaces.{IsNamedEntry};
ghost use Rattle.map_image.specs.Fit.{CountsFit, IsFit};
ghost use Rattle.map_codec.specs.Taking.{name_of, IsImageOf, IsNameOf};

use checkout::Tree;
use eden_base::NoMemory;
use fuse_ops::Served;
use manifest::Manifest;
use map_image::{Entries, Image, ManifestName, NamedBy};
use std::alloc::Global;

/// Returns whether an image with this name belongs to `manifest`.
pub(crate) fn is_name_of(name: ManifestName, manifest: &Manifest) -> bool
    ensures { IsTrue result ↔ IsNameOf manifest.now name }
{
    match name.by {
        NamedBy::Commit => name.bytes == manifest.commit(),
        NamedBy::Digest => name.bytes == manifest.digest(),
    }
}

/// Returns the name that an image of `tree` gives to the tree's manifest.
fn name_of(tree: &Tree, by: NamedBy) -> ManifestName
    ensures { result ≡ name_of by tree.now.manifest }
{
    let bytes = match by {
        NamedBy::Commit => tree.commit(),
        NamedBy::Digest => tree.digest(),
    };
    ManifestName { by, bytes }
}

/// Returns a copy of the entries of what is served.
fn entries_of(alloc: Global, served: &Served) -> Result<Entries, NoMemory>
    ensures entries { IfOk result (λ entries. entries ≡ served.now.map.entries) }
    ensures named { IfOk result (AllByRecursion IsNamedEntry) }
{
    let kept = served.map().to_entries(alloc)?;
    Ok(Entries::of(kept))
}

/// Makes the image of what a daemon serves at a generation, which names the manifest as `by` says. The image has every
/// number that is kept, whether its attributes are loaded or not, and how the checkout differs from its manifest.
pub fn image_of(
    alloc: Global,
    served: &Served,
    generation: u64,
    by: NamedBy,
) -> Result<Image, NoMemory>
    ensures image { IfOk result (IsImageOf served.now generation by) }
    ensures fit { IfOk result IsFit }
    ensures counts { IfOk result (λ image. CountsFit image.entries) }
{
    let map = served.map();
    let tree = served.tree();
    let entries = entries_of(alloc, served)?;
    let name = name_of(tree, by);
    let next_number = map.next();
    let changes = tree.changes()?;
    Ok(Image {
        name,
        generation,
        next_number,
        entries,
        changes,
    })
}
