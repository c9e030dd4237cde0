//! What a daemon lends to its workers.
ghost use Rattle.std.specs.Prelude.{◌≡◌};

use fuse_ops::Served;
use manifest::Manifest;

/// What a daemon lends to workers: the served state, its generation, and its share of the manifest.
#[derive(Drop)]
pub struct Lease {
    pub generation: u64,
    pub manifest: Manifest,
    pub served: Served,
    pub ghost over: { served.tree.manifest ≡ manifest },
}
