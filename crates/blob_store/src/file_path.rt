//! The path of a file of a manifest.
ghost use Rattle.std.specs.Prelude.{◌≡◌, ◌++◌, ◌∷◌, IfOk};
ghost use Rattle.blob_store.specs.FilePath.{IsPath};

use eden_base::FileId;
use manifest::{Line, line_of};
use std::alloc::Global;
use std::io::{self, Error, ErrorKind};

/// How many bytes a path has at most, as Linux takes it (`PATH_MAX`).
const MAX_PATH: usize = 4_096;

/// Returns the path `dir/rest`.
fn joined(alloc: Global, dir: &[u8], rest: &[u8]) -> io::Result<Vec<u8>>
    ensures joined { IfOk result (λ path. path.items ≡ dir.now ++ 47 ∷ rest.now) }
{
    let mut path = Vec::from_slice(alloc, dir)?;
    path.push(b'/')?;
    path.extend_from_slice(rest)?;
    Ok(path)
}

/// Returns the path of `file` from the root on, by going up its directories. Fails if `file` has no line, or if the path
/// is longer than the system takes.
#[tactic(auto, using(crate::proofs::Paths::path_step, crate::proofs::Paths::path_first, crate::proofs::Paths::path_end))]
pub(crate) fn path_of(alloc: Global, lines: &[Line], file: FileId) -> io::Result<Vec<u8>>
    ensures path { IfOk result (λ path. IsPath lines.now file path.items) }
{
    let Some(line) = line_of(lines, file) else {
        return Err(Error::from(ErrorKind::NotFound));
    };
    let mut path = Vec::from_slice(alloc, line.name.bytes())?;
    let mut dir = line.dir;
    for _up in 0..MAX_PATH {
        if dir.0 == 1 {
            return Ok(path);
        }
        let Some(line) = line_of(lines, dir) else {
            return Err(Error::from(ErrorKind::NotFound));
        };
        path = joined(alloc, line.name.bytes(), path.as_slice())?;
        dir = line.dir;
        if path.len() > MAX_PATH {
            break;
        }
    }
    Err(Error::from(ErrorKind::InvalidFilename))
}
