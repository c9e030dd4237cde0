//! A manifest that is made file by file.
ghost use Rattle.std.specs.Prelude.{◌≡◌, [], ◌∷◌, ◌++◌, ◌≤◌, IfErr, IfOk, OnErr, OnOk, None};
ghost use Rattle.eden_base.specs.Limits.{greatest_size};
ghost use Rattle.manifest.specs.Manifest.{most_files, IsManifest};
ghost use Rattle.manifest.specs.Placing.{line_at, place_fault, IsPlaceRefusal};

use crate::lines::Lines;
use crate::{Content, Manifest, PlaceFault};
use eden_base::NoMemory;
use std::alloc::Global;
use std::marker::Model;

/// The files of a manifest so far, each directory before what it holds. Their names need no text.
#[derive(Drop)]
pub struct ManifestBuilder {
    lines: Lines,
}

impl Model for ManifestBuilder {
    ghost use Rattle.std.specs.Prelude.{List};
    ghost use Rattle.manifest.specs.Manifest.{Line};
    ghost use Rattle.manifest.specs.Codes.{lines_code};

    ghost Value = { List Line };

    ghost coded = { lines_code };

    ghost view = { λ a. a.lines };
}

impl ManifestBuilder {
    /// How many files a manifest may have below its root.
    const MAX_FILES: usize = 16_777_215;

    /// Makes a builder without files.
    pub fn new(alloc: Global) -> ManifestBuilder
        ensures { result ≡ [] }
    {
        ManifestBuilder {
            lines: Lines::new(alloc),
        }
    }

    /// Adds a file at a path from the root, whose names a slash parts. An earlier file is the directory that holds it, or
    /// the root is.
    pub fn add(&mut self, alloc: Global, path: &[u8], file: Content) -> Result<(), PlaceFault>
        requires size { file.size ≤ greatest_size }
        ensures fits { OnOk result (place_fault most_files self.old path.now ≡ None) }
        ensures added { OnOk result (self.new ≡ self.old ++ line_at self.old path.now file ∷ []) }
        ensures refused { IfErr result (IsPlaceRefusal (place_fault most_files self.old path.now)) }
        ensures same { OnErr result (self.new ≡ self.old) }
    {
        self.lines
            .add(alloc, ManifestBuilder::MAX_FILES, path, file)
    }

    /// Makes the manifest of these files, for the commit with this name. Manifests of one commit with other files have
    /// to differ in their `digest`.
    pub fn finish(
        self,
        alloc: Global,
        commit: [u8; 20],
        digest: [u8; 20],
    ) -> Result<Manifest, NoMemory>
        ensures manifest { IfOk result (λ manifest. manifest
            ≡ record { commit = commit; digest = digest; lines = self }) }
        ensures is_manifest { IfOk result IsManifest }
    {
        let ManifestBuilder { lines } = self;
        Manifest::of(alloc, commit, digest, lines)
    }
}
