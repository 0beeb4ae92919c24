//! The crew's notation for labels.
#![tactic(auto)]

mod numbers;
mod schemes;
mod texts;

pub use numbers::{read_number, read_parts};
pub use schemes::{SchemeName, UnknownScheme, read_label};
pub use texts::{Words, split_once};
