//! Bytes read one after another, in little-endian.
#![tactic(auto)]

mod cursors;
mod little;

pub use cursors::{Cursor, CursorFault};
pub use little::Little;
