//! The calls and their refusals.
ghost use Rattle.std.specs.Prelude.{◌≡◌};
ghost use Rattle.calls.specs.Refusals.{refusal_number, refusal_word};
ghost use Rattle.calls.specs.declared.types.Refusal.TheVariants.{WrongKind};

use tables::kinds::UnknownKind;

/// A call with its arguments. Where a call has a `subject`, that subject makes it; `number` is the number that a new subject or object is to have.
// Kept: a kind and a mask of rights are bytes here, since each byte may be asked and has its answer; a narrower type asks more of who calls.
#[derive(Clone, Copy)]
pub enum Call {
    Enter {
        user: u8,
        number: u8,
        label: u64,
    },
    Launch {
        subject: u8,
        program: u8,
        number: u8,
        label: u64,
    },
    Leave {
        subject: u8,
    },
    Read {
        subject: u8,
        object: u8,
    },
    Write {
        subject: u8,
        object: u8,
    },
    Create {
        subject: u8,
        parent: u8,
        number: u8,
        kind: u8,
        label: u64,
    },
    Delete {
        subject: u8,
        object: u8,
    },
    Move {
        subject: u8,
        object: u8,
        parent: u8,
    },
    Raise {
        subject: u8,
        object: u8,
        label: u64,
    },
    Mix {
        subject: u8,
        object: u8,
    },
    Unmix {
        subject: u8,
        object: u8,
    },
    Rights {
        subject: u8,
        object: u8,
        user: u8,
        mask: u8,
    },
    Allow {
        subject: u8,
        user: u8,
        program: u8,
    },
    Bar {
        subject: u8,
        user: u8,
        program: u8,
    },
}

/// Why a call is refused, in the order in which the conditions are asked.
#[derive(Clone, Copy, PartialEq, Eq)]
pub enum Refusal {
    NobodyThere = 1,
    SeatTaken = 2,
    NoLabel = 3,
    WrongKind = 4,
    NoRight = 5,
    NotListed = 6,
    WrongWay = 7,
    OutOfRange = 8,
    WontNest = 9,
    StillRigged = 10,
}

impl Refusal {
    /// The number of this refusal.
    // Kept: a public method, which refusals and faults all have under this name; a `From` beside it would promise the same twice.
    pub fn number(&self) -> u8
        ensures { result ≡ refusal_number self.now }
    {
        *self as u8
    }

    /// The word for this refusal.
    // Kept: nothing formats a refusal, so a Display beside this would be no plainer; the word is lent, and takes no memory.
    pub fn word(&self) -> &'static str
        ensures { result.now ≡ refusal_word self.now }
    {
        match self {
            Refusal::NobodyThere => "nobody there",
            Refusal::SeatTaken => "seat taken",
            Refusal::NoLabel => "no label",
            Refusal::WrongKind => "wrong kind",
            Refusal::NoRight => "no right",
            Refusal::NotListed => "not listed",
            Refusal::WrongWay => "wrong way",
            Refusal::OutOfRange => "out of range",
            Refusal::WontNest => "won't nest",
            Refusal::StillRigged => "still rigged",
        }
    }
}

impl From<UnknownKind> for Refusal {
    ghost from_gives = { λ _ e. e ≡ WrongKind };

    fn from(_kind: UnknownKind) -> Refusal {
        Self::WrongKind
    }
}
