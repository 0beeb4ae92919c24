//! What stands in the slots of the tables, written as records.
ghost use Rattle.std.specs.Prelude.{◌≡◌, ℕ, ◌≤◌, map, length};
ghost use Rattle.records.specs.declared.forms.Record.{Record};
ghost use Rattle.records.specs.declared.forms.Record.TheVariants as record_of;
ghost use Rattle.records.specs.Records.{encode};
ghost use Rattle.roll.specs.Slots.{rights_byte, user_record, group_record, object_record};
ghost use Rattle.saving.specs.Takes.{Took};

use crate::fields::{put_number, put_rights};
use crate::sinks::Sink;
use records::{GroupRecord, ObjectRecord, Record, UserRecord, group_map, object_map, user_map};
use tables::sets::Rights;
use tables::types::{Object, User};

/// A group's record.
// Kept: each function here says of its own value what it is in bytes; a trait would say `Took` once and define those bytes in the same words.
fn put_group<S: Sink>(out: &mut S, g: &GroupRecord)
    ensures { Took S.Sink.puts out.old (encode (record_of.Group g.now)) out.new }
{
    out.put(&[group_map(g), Record::GROUP, g.number]);
    put_number(out, g.role);
}

/// A user's record.
// Kept: as above.
fn put_user<S: Sink>(out: &mut S, u: &UserRecord)
    ensures { Took S.Sink.puts out.old (encode (record_of.User u.now)) out.new }
{
    out.put(&[user_map(u), Record::USER, u.number]);
    put_number(out, u.groups);
    put_number(out, u.allow);
    put_number(out, u.floor);
    put_number(out, u.top);
}

/// An object's record.
// Kept: as above.
fn put_object<S: Sink>(out: &mut S, o: &ObjectRecord)
    ensures { Took S.Sink.puts out.old (encode (record_of.Object o.now)) out.new }
{
    out.put(&[object_map(o), Record::OBJECT, o.number]);
    put_number(out, o.parent);
    put_number(out, o.kind);
    put_number(out, o.owner);
    put_number(out, o.label);
    put_number(out, o.groups);
    put_rights(out, &o.rights);
}

/// A record: its map, kind and number, then the fields that are not zero.
// Kept: as above.
pub(crate) fn put_record<S: Sink>(out: &mut S, r: &Record)
    ensures { Took S.Sink.puts out.old (encode r.now) out.new }
{
    match r {
        Record::User(u) => put_user(out, u),
        Record::Group(g) => put_group(out, g),
        Record::Object(o) => put_object(out, o),
    }
}

/// What a slot of the tables may hold.
pub trait Entry {
    /// The record of one, with the number of its slot.
    ghost written: { ℕ → Self → Record };

    /// How many bytes a record takes at most.
    ghost most: { ℕ };

    fn record(&self, number: u8) -> Record
        ensures is { result ≡ written number self.now }
        ensures short { length (encode result) ≤ most };
}

impl Entry for User {
    ghost written = { user_record };

    ghost most = { 29 };

    fn record(&self, number: u8) -> Record {
        Record::User(UserRecord {
            number,
            admin: self.admin,
            groups: self.groups.0,
            allow: self.allowed.0,
            floor: self.floor,
            top: self.top,
        })
    }
}

impl Entry for Rights {
    ghost written = { group_record };

    ghost most = { 4 };

    fn record(&self, number: u8) -> Record {
        Record::Group(GroupRecord {
            number,
            role: self.0,
        })
    }
}

/// The rights as bytes.
fn rights_bytes(rights: &[Rights; 16]) -> [u8; 16]
    ensures is { result ≡ map rights_byte rights.now }
    ensures long { length result ≡ 16 }
{
    rights.map(|r| r.0)
}

impl Entry for Object {
    ghost written = { object_record };

    ghost most = { 34 };

    fn record(&self, number: u8) -> Record {
        Record::Object(ObjectRecord {
            number,
            parent: self.parent,
            kind: u8::from(self.kind),
            owner: self.owner,
            label: self.label,
            mixed: self.mixed,
            groups: self.groups.0,
            rights: rights_bytes(&self.rights),
        })
    }
}
