//! Where a record stands in a roll.
ghost use Rattle.std.specs.Prelude.{◌≡◌};
ghost use Rattle.roll.specs.Places.{place_of};

use records::Record;

/// A record's place: by kind, then by number.
#[derive(Clone, Copy, PartialEq, PartialOrd)]
pub(crate) enum Place {
    User(u8),
    Group(u8),
    Object(u8),
}

impl From<&Record> for Place {
    ghost from_gives = { λ r p. p ≡ place_of r.now };

    fn from(r: &Record) -> Place {
        match r {
            Record::User(u) => Place::User(u.number),
            Record::Group(g) => Place::Group(g.number),
            Record::Object(o) => Place::Object(o.number),
        }
    }
}
