//! A manifest of a directory with one file, which the tests share.

pub(crate) const LISTED: &[u8] = b"commit 8f14e45fceea167a5a36dedd4bea2543a1b2c3d4
dir lib
file 0644 5 lib/x
";
