//! Questions about labels as lines of text, and the replies to them.
#![tactic(auto)]

mod questions;
mod replies;

pub use questions::reads::read_question;
pub use questions::{Ask, Fault, Query, Question};
pub use replies::{Reply, answer, reply_all, reply_line};
