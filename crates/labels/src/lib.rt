//! Label schemes: which numbers are labels, which label flows to which, and which holds which.
#![tactic(auto)]

mod houses;
mod levels;
mod marked;
mod olds;
mod pairs;
mod schemes;
mod sets;
mod turns;

pub use houses::{House, Parts, house_label};
pub use levels::Level;
pub use marked::marked_examples;
pub use olds::{Old, old_label};
pub use pairs::Pair;
pub use schemes::Scheme;
pub use sets::Categories;
pub use turns::Turned;
