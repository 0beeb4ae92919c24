//! Questions about labels.
use notation::SchemeName;

pub mod reads;

/// What is asked, as the first word of a line says it.
#[derive(Clone, Copy)]
pub enum Ask {
    Label,
    Flows,
    Holds,
    Number,
    Parts,
}

/// What is asked, and of which labels.
#[derive(Clone, Copy)]
pub enum Query {
    Label(u64),
    Flows(u64, u64),
    Holds(u64, u64),
    Number(u64),
    Parts(u64),
}

/// A whole question: the label scheme that it is about, and what is asked.
#[derive(Clone, Copy)]
pub struct Question {
    pub scheme: SchemeName,
    pub query: Query,
}

/// The first thing in a line that is not understood.
#[derive(Clone, Copy)]
pub enum Fault {
    Text,
    Ask,
    Scheme,
    First,
    Second,
    Extra,
}
