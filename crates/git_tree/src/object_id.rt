//! The name of an object of git.
ghost use Rattle.std.specs.Prelude.{◌≡◌, IfSome};
ghost use Rattle.std.specs.List.{list_all};
ghost use Rattle.hex.specs.Hex.{encode_lower};
ghost use Rattle.git_tree.specs.GitObject.{is_lower_digit, object_of};

/// The name of an object: the twenty bytes of its SHA-1. Commits, trees and blobs have one each.
#[derive(Clone, Copy, PartialEq, Eq)]
pub struct ObjectId(pub [u8; 20]);

impl ObjectId {
    /// Reads a name as git prints it: forty hexadecimal digits in lower case.
    pub fn parse(digits: &[u8]) -> Option<ObjectId>
        ensures object { result ≡ object_of digits.now }
    {
        if !is_lower(digits) {
            return None;
        }
        let mut bytes = [0; 20];
        match hex::decode_to_slice(digits, &mut bytes) {
            Ok(()) => Some(ObjectId(bytes)),
            Err(_) => None,
        }
    }

    /// Returns the name as git prints it.
    pub fn text(self) -> [u8; 40]
        ensures text { result ≡ encode_lower self.0 }
    {
        let mut text = [0; 40];
        let Ok(()) = hex::encode_to_slice(&self.0, &mut text) else {
            unreachable!()
        };
        text
    }
}

/// Returns whether each of `digits` is a hexadecimal digit in lower case.
pub(crate) fn is_lower(digits: &[u8]) -> bool
    ensures { result ≡ list_all is_lower_digit digits.now }
{
    digits
        .iter()
        .all(|d| *d >= b'0' && *d <= b'9' || *d >= b'a' && *d <= b'f')
}
