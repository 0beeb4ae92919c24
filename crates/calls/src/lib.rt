//! The fourteen calls of a reference monitor for file access: what each asks, in which order it is refused, and what it sets once it is granted.
#![tactic(auto)]

pub mod apply;
pub mod types;
