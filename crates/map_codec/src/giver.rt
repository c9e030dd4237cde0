//! The daemon that hands over what it serves.
ghost use Rattle.std.specs.Prelude.{◌≡◌, IfErr, IfOk, None, OnOk};
ghost use Rattle.map_image.specs.Fit.{IsFit};
ghost use Rattle.map_image.specs.ImageText.{IsImageText};
ghost use Rattle.map_image.specs.Writing.{refusal};
ghost use Rattle.map_codec.specs.Handover.{told_of_write, CannotBeHandedOver, IsHandedOver, IsHandingRefusal, IsTextRefusal};

use crate::{HandoverFault, image_of};
use eden_base::NoMemory;
use fuse_ops::Served;
use map_image::{Image, WriteFault, is_version, named_by, write};
use std::alloc::Global;

/// Returns the fault of a handover for a fault of writing.
fn write_told(fault: WriteFault) -> HandoverFault
    ensures { result ≡ told_of_write fault }
{
    match fault {
        WriteFault::NoMemory => HandoverFault::NoMemory,
        _ => HandoverFault::Refused,
    }
}

/// Writes an image in this version.
fn text_of(alloc: Global, image: &Image, version: u16) -> Result<Vec<u8>, HandoverFault>
    requires fit { IsFit image.now }
    ensures text { IfOk result (λ bytes. IsImageText image.now version bytes.items) }
    ensures accepted { OnOk result (refusal image.now version ≡ None) }
    ensures refused { IfErr result (IsTextRefusal image.now version) }
{
    match write(alloc, image, version) {
        Ok(bytes) => Ok(bytes),
        Err(fault) => Err(write_told(fault)),
    }
}

/// Hands over what a daemon serves at a generation: returns the text of its image in this version. What is served is
/// unchanged.
pub fn hand_over(
    alloc: Global,
    served: &Served,
    generation: u64,
    version: u16,
) -> Result<Vec<u8>, HandoverFault>
    ensures handed { IfOk result (λ bytes. IsHandedOver served.now generation version bytes.items) }
    ensures accepted { OnOk result (CannotBeHandedOver served.now generation version → ⊥) }
    ensures refused { IfErr result (IsHandingRefusal served.now generation version) }
{
    if !is_version(version) {
        return Err(HandoverFault::Refused);
    }
    match image_of(alloc, served, generation, named_by(version)) {
        Ok(image) => {
            let text = text_of(alloc, &image, version);
            drop(image);
            text
        }
        Err(NoMemory) => Err(HandoverFault::NoMemory),
    }
}
