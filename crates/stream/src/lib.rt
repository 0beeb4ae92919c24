//! The reader of a call stream: calls one after another, as bytes.
#![tactic(auto)]

mod faults;
mod reads;

pub use faults::CallFault;
pub use reads::next_call;
