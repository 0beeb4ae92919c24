//! Records as the tables have them.
ghost use Rattle.std.specs.Prelude.{◌≡◌, map};
ghost use Rattle.roll.specs.Slots.{rights_of, user_of, role_of, object_of};

use records::{GroupRecord, ObjectRecord, UserRecord};
use tables::sets::{GroupSet, ObjectSet, Rights};
use tables::types::{Kind, Object, User};

/// The rights of the users.
fn table_rights(bytes: &[u8; 16]) -> [Rights; 16]
    ensures { result ≡ map rights_of bytes.now }
{
    bytes.map(Rights)
}

// Kept: `From` may not be written for these three, as the trait and both types are other crates'.
/// The user that a record describes.
pub(crate) fn table_user(u: &UserRecord) -> User
    ensures { result ≡ user_of u.now }
{
    User {
        admin: u.admin,
        groups: GroupSet(u.groups),
        allowed: ObjectSet(u.allow),
        floor: u.floor,
        top: u.top,
    }
}

// Kept: as above.
/// The role that a record describes.
pub(crate) fn table_role(g: &GroupRecord) -> Rights
    ensures { result ≡ role_of g.now }
{
    Rights(g.role)
}

// Kept: as above.
/// The object that a record describes.
pub(crate) fn table_object(o: &ObjectRecord) -> Object
    ensures { result ≡ object_of o.now }
{
    Object {
        kind: Kind::try_from(o.kind).unwrap_or(Kind::Program),
        parent: o.parent,
        owner: o.owner,
        label: o.label,
        mixed: o.mixed,
        groups: GroupSet(o.groups),
        rights: table_rights(&o.rights),
    }
}
