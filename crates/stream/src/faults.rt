//! What can be wrong with a call of a stream.
ghost use Rattle.std.specs.Prelude.{◌≡◌};
ghost use Rattle.stream.specs.declared.faults.CallFault.TheVariants.{Bytes};
ghost use Rattle.stream.specs.Faults.{fault_number, fault_place};

use byte_cursor::CursorFault;

/// The bytes end inside a call, or the call that begins at the place is in bad form.
// Kept: a record's fault has a third case, which no call can meet.
#[derive(Clone, Copy)]
pub enum CallFault {
    Bytes(CursorFault),
    Form(usize),
}

impl From<CursorFault> for CallFault {
    ghost from_gives = { λ e r. r ≡ Bytes e };

    fn from(e: CursorFault) -> CallFault {
        CallFault::Bytes(e)
    }
}

impl CallFault {
    // Kept: a fault has a number and a place; `u8::from(&fault)` would not say which of the two it gives.
    /// The number of this fault: 11 for a call that is cut short, 12 for bad form.
    pub fn number(&self) -> u8
        ensures { result ≡ fault_number self.now }
    {
        match self {
            CallFault::Bytes(_) => 11,
            CallFault::Form(_) => 12,
        }
    }

    /// The place of the call's first byte.
    pub fn place(&self) -> usize
        ensures { result ≡ fault_place self.now }
    {
        match self {
            CallFault::Bytes(e) => e.first,
            CallFault::Form(p) => *p,
        }
    }
}
