//! What can be wrong with a roll.
ghost use Rattle.std.specs.Prelude.{◌≡◌};
ghost use Rattle.monitor.specs.Faults.{fault_number, fault_place};
ghost use Rattle.monitor.specs.declared.faults.RollFault.TheVariants.{Record as OfRecord};

use records::RecordFault;
use sound::clauses::Clause;

/// The bytes or a record failed; or the whole roll did: its tables are not sound, by the first clause that fails, and its length.
#[derive(Clone, Copy)]
pub enum RollFault {
    Record(RecordFault),
    Unsound(Clause, usize),
}

impl From<RecordFault> for RollFault {
    ghost from_gives = { λ e r. r ≡ OfRecord e };

    fn from(e: RecordFault) -> RollFault {
        RollFault::Record(e)
    }
}

impl RollFault {
    /// The fault's number.
    // Kept: a fault has a number and a place; `u8::from(&fault)` would not say which of the two it gives, and the numbers are those of the format.
    pub fn number(&self) -> u8
        ensures { result ≡ fault_number self.now }
    {
        match self {
            RollFault::Record(RecordFault::Bytes(_)) => 11,
            RollFault::Record(RecordFault::Form(_)) => 12,
            RollFault::Record(RecordFault::Order(_)) => 13,
            RollFault::Unsound(_, _) => 14,
        }
    }

    /// The byte place that it carries.
    pub fn place(&self) -> usize
        ensures { result ≡ fault_place self.now }
    {
        match self {
            RollFault::Record(RecordFault::Bytes(e)) => e.first,
            RollFault::Record(RecordFault::Form(p) | RecordFault::Order(p)) => *p,
            RollFault::Unsound(_, n) => *n,
        }
    }
}
