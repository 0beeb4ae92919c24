//! The records of a roll, and what can be wrong with one.
ghost use Rattle.std.specs.Prelude.{◌≡◌};
ghost use Rattle.records.specs.declared.forms.RecordFault.TheVariants.{Bytes};

use byte_cursor::CursorFault;

#[derive(Clone, Copy, Debug, PartialEq)]
pub struct UserRecord {
    pub number: u8,
    pub admin: bool,
    pub groups: u16,
    pub allow: u64,
    pub floor: u64,
    pub top: u64,
}

#[derive(Clone, Copy, Debug, PartialEq)]
pub struct GroupRecord {
    pub number: u8,
    pub role: u8,
}

// Kept: kind and parent are the bytes that stand in a roll: `object_map` takes every record, and a narrower type would ask more of who calls.
#[derive(Clone, Copy, Debug, PartialEq)]
pub struct ObjectRecord {
    pub number: u8,
    pub parent: u8,
    pub kind: u8,
    pub owner: u8,
    pub label: u64,
    pub mixed: bool,
    pub groups: u16,
    pub rights: [u8; 16],
}

#[derive(Clone, Copy, Debug, PartialEq)]
pub enum Record {
    User(UserRecord),
    Group(GroupRecord),
    Object(ObjectRecord),
}

/// The numbers of the kinds in a record's head.
// Kept: numbers, as they stand in a roll: an enum of them with `TryFrom<u8>` is no plainer, as it would be a third list of the same three
// kinds, beside `Record` and the match in `read_record`.
impl Record {
    pub const USER: u8 = 1;

    pub const GROUP: u8 = 2;

    pub const OBJECT: u8 = 3;
}

/// The bytes failed, or the record that begins at the place did.
// Kept: a call's fault has the first two cases and no third; one type for both would have a case that no call can meet.
#[derive(Clone, Copy, Debug, PartialEq)]
pub enum RecordFault {
    Bytes(CursorFault),
    Form(usize),
    Order(usize),
}

impl From<CursorFault> for RecordFault {
    ghost from_gives = { λ e r. r ≡ Bytes e };

    fn from(e: CursorFault) -> RecordFault {
        RecordFault::Bytes(e)
    }
}
