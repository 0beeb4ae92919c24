//! A roll in words: what it says, or why it is refused.
#![tactic(auto)]

mod lines;
mod refusals;
mod reports;
mod sets;
mod tables_text;
mod words;

pub use reports::report;
