//! The line that refuses a roll.
ghost use Rattle.std.specs.Prelude.{Some as Text};
ghost use Rattle.listing.specs.Words.{refusal_text};

use crate::words::{clause_letter, clause_text, fault_word};
use monitor::RollFault;
use std::fmt;

/// Why a roll is refused.
#[derive(Clone, Copy)]
pub struct Refusal {
    pub fault: RollFault,
}

// Kept: a type that is there to be printed: the fault is another crate's type, which cannot be given a Display here. A Display in
// `monitor`, which has the type, would give it this report's words, and the guard's programs print the same fault otherwise, by its number.
impl fmt::Display for Refusal {
    ghost output = { λ e. Text (refusal_text e.fault) };

    fn fmt<W: fmt::Write>(&self, f: &mut fmt::Formatter<W>) -> fmt::Result {
        let number = self.fault.number();
        let word = fault_word(&self.fault);
        let place = self.fault.place();
        match self.fault {
            RollFault::Record(_) => write!(f, "roll refused: {number} {word} at byte {place}"),
            RollFault::Unsound(clause, _) => {
                let letter = clause_letter(clause);
                let text = clause_text(clause);
                write!(
                    f,
                    "roll refused: {number} {word} at byte {place}, clause {letter}: {text}"
                )
            }
        }
    }
}
