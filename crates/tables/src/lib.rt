//! The tables of a reference monitor for file access: users, groups, subjects and objects, what can be asked of them, and one method for
//! each change.
//!
//! No function asks anything of its caller: a number past a table, or an empty slot, gets an answer and changes nothing.
#![tactic(auto)]

pub mod changes;
pub mod kinds;
pub mod readers;
pub mod rights;
pub mod sets;
mod slots;
pub mod types;
pub mod ways;
