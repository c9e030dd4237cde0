//! The name of a commit.
ghost use Rattle.std.specs.Prelude.{◌≡◌};
ghost use Rattle.git_tree.specs.GitCommit.{commit_of};

use crate::object_id::is_lower;
use crate::{CommitFault, ObjectId};
use eden_base::cut;

/// How many digits the SHA-256 of an object has.
const SHA256_DIGITS: usize = 64;

/// Reads the name of a commit as `git rev-parse` prints it: forty hexadecimal digits in lower case, and LF.
pub fn commit_of(printed: &[u8]) -> Result<[u8; 20], CommitFault>
    ensures commit { result ≡ commit_of printed.now }
{
    let Some((digits, [])) = cut(printed, b'\n') else {
        return Err(CommitFault::BadName);
    };
    if let Some(commit) = ObjectId::parse(digits) {
        return Ok(commit.0);
    }
    if digits.len() == SHA256_DIGITS && is_lower(digits) {
        return Err(CommitFault::Sha256);
    }
    Err(CommitFault::BadName)
}
