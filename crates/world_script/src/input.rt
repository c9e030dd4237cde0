//! The bytes of a script or of a manifest, read whole.
ghost use Rattle.std.specs.Prelude.{◌≡◌, ◌≤◌, ◌<◌, ◌++◌, true, length, IfOk, IfErr, IfSome, Ok};
ghost use Rattle.std.specs.Io.KnownBytes.{IsAtEnd};
ghost use Rattle.world_script.specs.Input.{Reads};
ghost use Rattle.manifest.specs.ManifestText.{manifest_of};
ghost use Rattle.world_script.specs.Refusal.{IsCaused, IsManifestFault, IsReadRefusal};

use crate::{ProgramFault, RunError};
use manifest::Manifest;
use std::alloc::Global;
use std::io::{self, ErrorKind, Read};

/// How many bytes a script may have.
pub const MAX_LEN: usize = 1_048_576;

/// How often a script may be read until its end is seen. A read that was interrupted counts.
pub const MAX_READS: usize = 2_097_152;

const CHUNK: usize = 16_384;

/// Reads all bytes of `reader`. It stops reading once there are more than `MAX_LEN`.
pub fn read_whole<R: Read>(alloc: Global, reader: &mut R) -> Result<Vec<u8>, RunError>
    ensures len { IfOk result (λ bytes. length bytes.items ≤ MAX_LEN) }
    ensures whole { IfOk result (λ bytes.
        IfSome (R.remaining reader.old) (λ all. bytes.items ≡ all)) }
    ensures refused { IfErr result (λ error. IsReadRefusal error.fault) }
    ensures caused { IfErr result IsCaused }
    ensures too_long { IfErr result (λ error. error.fault ≡ ProgramFault.TooLong
        → IfSome (R.remaining reader.old) (λ all. MAX_LEN < length all)) }
{
    let mut bytes = Vec::new(alloc);
    let mut chunk = [0; CHUNK];
    for _ in 0..MAX_READS {
        if read_once(reader, &mut chunk, &mut bytes)? {
            return Ok(bytes);
        }
    }
    let cause = io::Error::other("its end was not seen in 2097152 reads");
    Err(RunError::with_cause(ProgramFault::CannotRead, cause))
}

/// Makes one read into `bytes`, and returns whether the end was reached.
fn read_once<R: Read>(
    reader: &mut R,
    chunk: &mut [u8],
    bytes: &mut Vec<u8>,
) -> Result<bool, RunError>
    requires room { 0 < length chunk.old }
    requires small { length bytes.old.items ≤ MAX_LEN }
    ensures len { IfOk result (λ _. length bytes.new.items ≤ MAX_LEN) }
    ensures more { IfOk result (λ _. Reads (R.remaining reader.old) bytes.old.items
        (R.remaining reader.new) bytes.new.items) }
    ensures end { IfOk result (λ is_last. is_last ≡ true → IsAtEnd (R.remaining reader.new)) }
    ensures refused { IfErr result (λ error. IsReadRefusal error.fault) }
    ensures caused { IfErr result IsCaused }
    ensures too_long { IfErr result (λ error. error.fault ≡ ProgramFault.TooLong
        → IfSome (R.remaining reader.old) (λ rest. MAX_LEN < length (bytes.old.items ++ rest))) }
{
    match reader.read(chunk) {
        Ok(0) => Ok(true),
        Ok(n) => {
            if n > MAX_LEN - bytes.len() {
                return Err(RunError::from(ProgramFault::TooLong));
            }
            bytes.extend_from_slice(&chunk[..n])?;
            Ok(false)
        }
        Err(error) if error.kind() == ErrorKind::Interrupted => Ok(false),
        Err(error) => Err(RunError::with_cause(ProgramFault::CannotRead, error)),
    }
}

/// Reads the manifest that `bytes` write.
pub fn read_manifest(alloc: Global, bytes: &[u8]) -> Result<Manifest, ProgramFault>
    ensures manifest { IfOk result (λ manifest. manifest_of bytes.now ≡ Ok manifest) }
    ensures refused { IfErr result (IsManifestFault bytes.now) }
{
    Ok(Manifest::read(alloc, bytes)?)
}
