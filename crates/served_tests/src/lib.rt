//! Tests by the public calls of several crates: of an arena's drops, of `journal`, `workers` and `links`, and of daemons
//! and their desks.
#![tactic(auto)]

#[cfg(test)]
mod again;
#[cfg(test)]
mod daemon_desk_tests;
#[cfg(test)]
mod daemon_tests;
#[cfg(test)]
mod links_tests;
#[cfg(test)]
mod listed;
#[cfg(test)]
mod node_arena_tests;
#[cfg(test)]
mod workers_tests;
