//! The roll: the tables as a canonical run of bytes.
#![tactic(auto)]

mod places;
mod reading;
mod slots;

pub use reading::read_tables;
