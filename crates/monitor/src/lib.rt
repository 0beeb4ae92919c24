//! The reference monitor.
#![tactic(auto)]

mod faults;
mod guards;
mod marked;
mod uses;

pub use faults::RollFault;
pub use guards::Guard;
pub use marked::marked_examples;
pub use uses::{house_guard, old_guard};
