//! The rules of a reference monitor for file access: whether a call is granted, and which refusal comes first.
//!
//! No function asks anything of its caller: every answer is exact on every table, whatever its slots hold.
#![tactic(auto)]

mod access;
mod attributes;
pub mod decide;
mod grants;
mod named;
mod nests;
mod places;
