//! Big-endian fields: how they are written, how they are read, and bytes as a value.
#![tactic(auto)]

mod bytes;
mod field;
mod reader;
mod storage;
mod writer;

pub use bytes::Bytes;
pub use field::{u16_in, u32_in, u64_in};
pub use reader::{byte_at, bytes_at, u16_at, u32_at, u64_at};
pub use writer::{put_byte, put_slice, put_u16, put_u32, put_u64};
