//! Saves the tables as a roll in a lent buffer.
#![tactic(auto)]

mod entries;
mod fields;
mod saves;
mod sinks;

pub use saves::{NoRoom, save, saved_len};
