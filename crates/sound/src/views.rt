//! The tables, seen under a label scheme.
use tables::types::Tables;

/// A label scheme and the tables that it judges, both lent.
#[derive(Drop)]
pub struct View<'a, S> {
    pub scheme: &'a S,
    pub tables: &'a Tables,
}
