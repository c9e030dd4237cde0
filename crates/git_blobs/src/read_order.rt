//! Files that are read one after another.
ghost use Rattle.std.specs.Prelude.{◌≡◌, None};
ghost use Rattle.git_blobs.specs.ReadOrder.{ahead_of, is_behind, longer, order_after};

use eden_base::FileId;

/// How far behind the file that was read last one may stand that is read in order. Between them stand directories, files without
/// bytes, and those that the kernel keeps.
const NEAR: u64 = 8;

/// How many files ahead are asked for at first, and at most.
const FIRST: u64 = 2;

const MOST: u64 = 32;

/// The files that stand more than `from` places behind the one that is read, and at most `to`.
#[derive(Clone, Copy)]
pub(crate) struct Ahead {
    pub from: u64,
    pub to: u64,
}

/// The order in which files are read: the one that was read last, and how many behind it were asked for.
#[derive(Clone, Copy)]
pub(crate) struct ReadOrder {
    pub last: Option<FileId>,
    pub reach: u64,
}

/// Returns whether `file` stands a little behind `last`.
fn is_behind(last: FileId, file: FileId) -> bool
    ensures { result ≡ is_behind last file }
{
    last.0 < file.0 && file.0 - last.0 <= NEAR
}

/// Returns how many files ahead are asked for by one more read in order.
fn longer(reach: u64) -> u64
    ensures { result ≡ longer reach }
{
    if reach >= MOST / 2 {
        return MOST;
    }
    FIRST.max(reach * 2)
}

impl ReadOrder {
    /// Returns the order before anything was read.
    pub(crate) fn new() -> ReadOrder
        ensures last { result.last ≡ None }
        ensures reach { result.reach ≡ 0 }
    {
        ReadOrder {
            last: None,
            reach: 0,
        }
    }

    /// Notes that `file` is read, and returns which files behind it are asked for ahead.
    pub(crate) fn read(&mut self, file: FileId) -> Ahead
        ensures order { self.new ≡ order_after self.old file }
        ensures ahead { result ≡ ahead_of self.old file }
    {
        let was = *self;
        self.last = Some(file);
        match was.last {
            Some(last) if last == file => Ahead { from: 0, to: 0 },
            Some(last) if is_behind(last, file) => {
                self.reach = longer(was.reach);
                Ahead {
                    from: was.reach.saturating_sub(file.0 - last.0),
                    to: self.reach,
                }
            }
            _ => {
                self.reach = 0;
                Ahead { from: 0, to: 0 }
            }
        }
    }
}
