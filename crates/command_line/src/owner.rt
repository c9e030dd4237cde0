//! The owner that `--owner` names.
ghost use Rattle.std.specs.Prelude.{◌≡◌};
ghost use Rattle.command_line.specs.Owner.{id_of, owner_of};

use eden_base::cut;
use script_lines::number;

/// The user and the group that own each file of a mount.
#[derive(Clone, Copy, PartialEq, Eq)]
pub struct Owner {
    pub user: u32,
    pub group: u32,
}

/// The number that names no user and no group (`(uid_t) -1` of `chown(2)`).
const NOBODY: u64 = 0xffff_ffff;

/// Reads the owner that a `word` names: a user and a group in decimal digits, with a colon between them.
pub fn read_owner(word: &[u8]) -> Option<Owner>
    ensures owner { result ≡ owner_of word.now }
{
    let (user, group) = cut(word, b':')?;
    Some(Owner {
        user: read_id(user)?,
        group: read_id(group)?,
    })
}

/// Reads the number of a user or a group.
fn read_id(digits: &[u8]) -> Option<u32>
    ensures id { result ≡ id_of digits.now }
{
    let id = number(digits)?;
    if id >= NOBODY {
        return None;
    }
    Some(id as u32)
}
