//! Reads a record.
ghost use Rattle.std.specs.Prelude.{◌≡◌, if◌then◌else◌, MatchResult};
ghost use Rattle.byte_cursor.specs.Bytes.{left, Took, Short, Field};
ghost use Rattle.records.specs.Records.{has, groups, users, objects, Taken, Failed, InForm, encode, Faulty};

use crate::forms::{GroupRecord, ObjectRecord, Record, RecordFault, UserRecord};
use crate::rights::{ALL_RIGHTS, marks_of, read_rights, rights_part};
use byte_cursor::{Cursor, CursorFault, Little};

/// The head of a record, but for its kind: the map of its fields, and its number.
#[derive(Clone, Copy)]
struct Head {
    map: u8,
    number: u8,
}

impl Head {
    /// A bit stands in the map.
    fn has(self, bit: u8) -> bool
        ensures { result ≡ has self.map bit }
    {
        self.map & bit != 0
    }

    /// The field of a bit, 0 where the bit does not stand in the map.
    fn field<T: Little<N>, const N: usize>(self, bit: u8, c: &mut Cursor) -> Result<T, CursorFault>
        ensures { MatchResult result (λ v. Field N (has self.map bit) c.old c.new (T.value v)) (Short (if has self.map bit then N else 0) c.old c.new) }
    {
        c.field(self.has(bit))
    }
}

/// How many groups there are, how many maps, and the bit of the role in a map.
impl GroupRecord {
    const ROOM: u8 = 16;

    const MAPS: u8 = 2;

    const ROLE: u8 = 1;
}

/// The map of a group's fields that are not zero.
// Kept: a sum of named bits, and no `map_of<const N: usize>([bool; N])` for the three maps here and that of a call's arguments: the readers
// ask for the same bits by name, and an array would tell them by their place in it alone.
pub fn group_map(g: &GroupRecord) -> u8
    ensures { result ≡ groups.map g.now }
{
    GroupRecord::ROLE * u8::from(g.role != 0)
}

/// The fields of a group.
// Kept: three readers, since each takes other fields; what they share is `Head::field`, and what they promise is one pair of words, `Taken` and `Failed`.
fn group(c: &mut Cursor, head: Head) -> Result<GroupRecord, RecordFault>
    ensures { MatchResult result (Taken groups head.map head.number c.old c.new) (Failed groups head.map head.number c.old) }
{
    let role = head.field(GroupRecord::ROLE, c)?;
    let g = GroupRecord {
        number: head.number,
        role,
    };
    if group_map(&g) != head.map || role > ALL_RIGHTS {
        return Err(RecordFault::Form(c.first()));
    }
    Ok(g)
}

/// How many users there are, how many maps, and the bits of the fields in a map.
impl UserRecord {
    const ROOM: u8 = 16;

    const MAPS: u8 = 32;

    const ADMIN: u8 = 1;

    const GROUPS: u8 = 2;

    const ALLOW: u8 = 4;

    const FLOOR: u8 = 8;

    const TOP: u8 = 16;
}

/// The map of a user's fields that are not zero.
// Kept: as above.
pub fn user_map(u: &UserRecord) -> u8
    ensures { result ≡ users.map u.now }
{
    UserRecord::ADMIN * u8::from(u.admin)
        + UserRecord::GROUPS * u8::from(u.groups != 0)
        + UserRecord::ALLOW * u8::from(u.allow != 0)
        + UserRecord::FLOOR * u8::from(u.floor != 0)
        + UserRecord::TOP * u8::from(u.top != 0)
}

/// The fields of a user.
// Kept: as at `group`.
fn user(c: &mut Cursor, head: Head) -> Result<UserRecord, RecordFault>
    ensures { MatchResult result (Taken users head.map head.number c.old c.new) (Failed users head.map head.number c.old) }
{
    let groups = head.field(UserRecord::GROUPS, c)?;
    let allow = head.field(UserRecord::ALLOW, c)?;
    let floor = head.field(UserRecord::FLOOR, c)?;
    let top = head.field(UserRecord::TOP, c)?;
    let u = UserRecord {
        number: head.number,
        admin: head.has(UserRecord::ADMIN),
        groups,
        allow,
        floor,
        top,
    };
    if user_map(&u) != head.map {
        return Err(RecordFault::Form(c.first()));
    }
    Ok(u)
}

/// How many objects there are, how many maps, the bits of the fields in a map, and the last kind.
impl ObjectRecord {
    const ROOM: u8 = 64;

    const MAPS: u8 = 128;

    const PARENT: u8 = 1;

    const KIND: u8 = 2;

    const OWNER: u8 = 4;

    const LABEL: u8 = 8;

    const MIXED: u8 = 16;

    const GROUPS: u8 = 32;

    const RIGHTS: u8 = 64;

    // Kept: a number, since a record has the byte of the kind as it stands in a roll: the enum `Kind` is of `tables`, which this crate does
    // not use, and one here would be a second list of the same three kinds.
    const LAST_KIND: u8 = 2;
}

/// The map of an object's fields that are not zero.
// Kept: as above.
pub fn object_map(o: &ObjectRecord) -> u8
    ensures { result ≡ objects.map o.now }
{
    ObjectRecord::PARENT * u8::from(o.parent != 0)
        + ObjectRecord::KIND * u8::from(o.kind != 0)
        + ObjectRecord::OWNER * u8::from(o.owner != 0)
        + ObjectRecord::LABEL * u8::from(o.label != 0)
        + ObjectRecord::MIXED * u8::from(o.mixed)
        + ObjectRecord::GROUPS * u8::from(o.groups != 0)
        + ObjectRecord::RIGHTS * u8::from(marks_of(&o.rights) != 0)
}

/// The fields of an object.
// Kept: as at `group`.
fn object(c: &mut Cursor, head: Head) -> Result<ObjectRecord, RecordFault>
    ensures { MatchResult result (Taken objects head.map head.number c.old c.new) (Failed objects head.map head.number c.old) }
{
    let parent = head.field(ObjectRecord::PARENT, c)?;
    let kind = head.field(ObjectRecord::KIND, c)?;
    let owner = head.field(ObjectRecord::OWNER, c)?;
    let label = head.field(ObjectRecord::LABEL, c)?;
    let groups = head.field(ObjectRecord::GROUPS, c)?;
    let part = rights_part(c, head.has(ObjectRecord::RIGHTS))?;
    let rights = read_rights(part).ok_or(RecordFault::Form(c.first()))?;
    let o = ObjectRecord {
        number: head.number,
        parent,
        kind,
        owner,
        label,
        mixed: head.has(ObjectRecord::MIXED),
        groups,
        rights,
    };
    if object_map(&o) != head.map || kind > ObjectRecord::LAST_KIND {
        return Err(RecordFault::Form(c.first()));
    }
    Ok(o)
}

/// The next record.
pub fn read_record(c: &mut Cursor) -> Result<Record, RecordFault>
    ensures { MatchResult result (λ x. InForm x × Took c.old c.new (encode x)) (Faulty c.old.place (left c.old)) }
{
    c.begin();
    let [map, kind, number] = *c.array::<3>()?;
    let head = Head { map, number };
    // Kept: a match over the number that the format has for a kind: an enum of the numbers is no plainer, as it would be a third list of the
    // same three kinds, beside `Record` and this match, in which each arm has the room of its own table.
    match kind {
        Record::USER if number < UserRecord::ROOM && map < UserRecord::MAPS => {
            Ok(Record::User(user(c, head)?))
        }
        Record::GROUP if number < GroupRecord::ROOM && map < GroupRecord::MAPS => {
            Ok(Record::Group(group(c, head)?))
        }
        Record::OBJECT if number < ObjectRecord::ROOM && map < ObjectRecord::MAPS => {
            Ok(Record::Object(object(c, head)?))
        }
        _ => Err(RecordFault::Form(c.first())),
    }
}
