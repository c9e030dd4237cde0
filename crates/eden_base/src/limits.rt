//! The limits of numbers, counts, sizes, generations and sessions.

/// How often the kernel may hold one number.
pub const GREATEST_COUNT: u64 = (1 << 63) - 1;

/// The number after the last that may be given.
pub const END_OF_NUMBERS: u64 = (1 << 63) - 1;

/// The file id after the last that may be given: `i64::MAX`.
pub const END_OF_FILES: u64 = (1 << 63) - 1;

/// How many bytes a file may have: an offset in a file is a signed number of 64 bits.
pub const GREATEST_SIZE: u64 = (1 << 63) - 1;

/// The last generation that the seat may have; the first is 1.
pub const LAST_GENERATION: u64 = (1 << 63) - 1;

/// The last takeover session that a daemon may begin; its first is 1.
pub const LAST_SESSION: u32 = u32::MAX;
