//! Numbers by keys of 64 bits, most of them found at the first look.
#![tactic(auto)]

mod bucket;
mod buckets;
mod cells;
mod key_map;
mod numbers;
mod ordered_numbers;
mod tier;

pub use key_map::KeyMap;
