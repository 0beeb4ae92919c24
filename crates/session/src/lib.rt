//! A whole run of a reference monitor: a roll, and the calls of a stream one after another.
#![tactic(auto)]

mod outcomes;
mod runs;

pub use outcomes::{Outcome, Stop};
pub use runs::run;
