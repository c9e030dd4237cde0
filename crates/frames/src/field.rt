//! Bodies that are one number, or empty.
ghost use Rattle.std.specs.Int.{w16, w32, w64};
ghost use Rattle.frames.specs.Reading.{Is, alone, nothing};

use crate::FrameFault;
use byte_codec::{u16_in, u32_in, u64_in};

/// Returns the number that `body` is, if it has two bytes, else `BadBody`.
#[tactic(auto, unfolding(crate::specs::Reading::alone))]
pub(crate) fn u16_alone(body: &[u8]) -> Result<u16, FrameFault>
    ensures { Is (λ x. x) result (alone w16 body.now) }
{
    if body.len() != 2 {
        return Err(FrameFault::BadBody);
    }
    Ok(u16_in(body))
}

/// Returns the number that `body` is, if it has four bytes, else `BadBody`.
#[tactic(auto, unfolding(crate::specs::Reading::alone))]
pub(crate) fn u32_alone(body: &[u8]) -> Result<u32, FrameFault>
    ensures { Is (λ x. x) result (alone w32 body.now) }
{
    if body.len() != 4 {
        return Err(FrameFault::BadBody);
    }
    Ok(u32_in(body))
}

/// Returns the number that `body` is, if it has eight bytes, else `BadBody`.
#[tactic(auto, unfolding(crate::specs::Reading::alone))]
pub(crate) fn u64_alone(body: &[u8]) -> Result<u64, FrameFault>
    ensures { Is (λ x. x) result (alone w64 body.now) }
{
    if body.len() != 8 {
        return Err(FrameFault::BadBody);
    }
    Ok(u64_in(body))
}

/// Checks that `body` is empty, else returns `BadBody`.
#[tactic(auto, unfolding(crate::specs::Reading::nothing))]
pub(crate) fn nothing(body: &[u8]) -> Result<(), FrameFault>
    ensures { Is (λ x. x) result (nothing body.now) }
{
    match body {
        [] => Ok(()),
        _ => Err(FrameFault::BadBody),
    }
}
