//! The guard: a label scheme over plain tables.
use tables::types::Tables;

pub mod decides;
pub mod rolls;

// Kept: blank or sound was tried as a ghost field; it takes a fact with one proof, and this has more (two ways up), so its form there would say less.
#[derive(Drop)]
pub struct Guard<S> {
    scheme: S,
    tables: Tables,
}
