//! What is printed for a run of a roll and a call stream.
#![tactic(auto)]

mod lines;
mod runs;

pub use runs::{house_transcript, old_transcript, transcript};
