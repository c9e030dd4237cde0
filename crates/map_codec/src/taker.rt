//! The daemon that takes over what another one served.
ghost use Rattle.std.specs.Prelude.{◌≡◌, ◌↔◌, ℕ, IfErr, IfOk, IsTrue};
ghost use Rattle.fuse_ops.specs.Soundness.{IsSound};
ghost use Rattle.map_image.specs.Fit.{CountsFit, IsFit};
ghost use Rattle.map_image.specs.ImageText.{IsImageText};
ghost use Rattle.map_codec.specs.Raising.{IsRaisable, IsRaised};
ghost use Rattle.map_codec.specs.declared.fault.HandoverFault.TheVariants.{Refused};
ghost use Rattle.map_codec.specs.Handover.{told_of_raise, told_of_read, HasRightHeader, NamesAnother, IsReadRefusal, IsServingRefusal, IsTakenOver, IsTakingRefusal};

use crate::served_image::is_name_of;
use crate::{HandoverFault, RaiseFault, raise};
use fuse_ops::Served;
use manifest::Manifest;
use map_image::{Image, ImageFault, ImageReader, read, read_header};
use std::alloc::Global;

/// Returns whether the header of `bytes` is whole and right, with this generation and the manifest's name.
fn has_right_header(bytes: &[u8], manifest: &Manifest, generation: u64) -> bool
    ensures { IsTrue result ↔ HasRightHeader manifest.now generation bytes.now }
{
    match read_header(bytes) {
        Ok(header) => header.generation == generation && is_name_of(header.name, manifest),
        Err(_) => false,
    }
}

/// Returns whether `bytes` begin with the header of an image that names another manifest than `manifest`. So it can be
/// told why there is no takeover.
pub fn names_another(bytes: &[u8], manifest: &Manifest) -> bool
    ensures another { IsTrue result ↔ NamesAnother manifest.now bytes.now }
{
    match read_header(bytes) {
        Ok(header) => !is_name_of(header.name, manifest),
        Err(_) => false,
    }
}

/// Returns the fault of a takeover for a fault of reading.
fn read_told(fault: ImageFault) -> HandoverFault
    ensures { result ≡ told_of_read fault }
{
    match fault {
        ImageFault::NoMemory => HandoverFault::NoMemory,
        _ => HandoverFault::Refused,
    }
}

/// Reads an image from `bytes`, which have to be all of it.
fn image_told(alloc: Global, bytes: &[u8]) -> Result<Image, HandoverFault>
    ensures text { IfOk result (λ image. (version : ℕ) × IsImageText image version bytes.now) }
    ensures fit { IfOk result IsFit }
    ensures counts { IfOk result (λ image. CountsFit image.entries) }
    ensures refused { IfErr result (IsReadRefusal bytes.now) }
{
    match read(alloc, bytes) {
        Ok(image) => Ok(image),
        Err(fault) => Err(read_told(fault)),
    }
}

/// Returns the image that the bytes fed to `reader` are, or `Refused` if they are no image. Takes no memory, so the fault
/// is never `NoMemory`.
fn image_fed(reader: ImageReader) -> Result<Image, HandoverFault>
    ensures text { IfOk result (λ image. (version : ℕ) × IsImageText image version reader) }
    ensures fit { IfOk result IsFit }
    ensures counts { IfOk result (λ image. CountsFit image.entries) }
    ensures refused { IfErr result (IsReadRefusal reader) }
    ensures told { IfErr result (λ fault. fault ≡ Refused) }
{
    match reader.finish() {
        Ok(image) => Ok(image),
        Err(_) => Err(HandoverFault::Refused),
    }
}

/// Returns the fault of a takeover for a fault of restoring.
fn raise_told(fault: RaiseFault) -> HandoverFault
    ensures { result ≡ told_of_raise fault }
{
    match fault {
        RaiseFault::NoMemory => HandoverFault::NoMemory,
        _ => HandoverFault::Refused,
    }
}

/// Restores what is served from `image`, over `manifest`.
fn served_again(
    alloc: Global,
    image: Image,
    manifest: &Manifest,
    limit: usize,
) -> Result<Served, HandoverFault>
    requires fit { IsFit image }
    requires counts { CountsFit image.entries }
    ensures raised { IfOk result (IsRaised manifest.now image limit) }
    ensures sound { IfOk result IsSound }
    ensures accepted { IfOk result (λ served. IsRaisable manifest.now image) }
    ensures refused { IfErr result (IsServingRefusal manifest.now image) }
{
    match raise(alloc, image, manifest, limit) {
        Ok(served) => Ok(served),
        Err(fault) => Err(raise_told(fault)),
    }
}

/// Takes over what `bytes` tell over `manifest`, if they are an image of this generation. At most `limit` attributes
/// are loaded at once, or 1 if `limit` is 0; none are loaded at first. The header is read before memory is taken.
pub fn take_over(
    alloc: Global,
    bytes: &[u8],
    manifest: &Manifest,
    limit: usize,
    generation: u64,
) -> Result<Served, HandoverFault>
    ensures taken { IfOk result (IsTakenOver manifest.now limit generation bytes.now) }
    ensures refused { IfErr result (IsTakingRefusal manifest.now generation bytes.now) }
{
    if !has_right_header(bytes, manifest, generation) {
        return Err(HandoverFault::Refused);
    }
    let image = image_told(alloc, bytes)?;
    served_again(alloc, image, manifest, limit)
}

/// Takes over what the bytes that `reader` has read tell over `manifest`, as `take_over` does: at most `limit` attributes
/// are loaded at once. Memory is allocated only if the image is whole and of this generation.
pub fn take_over_read(
    alloc: Global,
    reader: ImageReader,
    manifest: &Manifest,
    limit: usize,
    generation: u64,
) -> Result<Served, HandoverFault>
    ensures taken { IfOk result (IsTakenOver manifest.now limit generation reader) }
    ensures refused { IfErr result (IsTakingRefusal manifest.now generation reader) }
{
    let image = image_fed(reader)?;
    if image.generation == generation {
        return served_again(alloc, image, manifest, limit);
    }
    drop(image);
    Err(HandoverFault::Refused)
}
