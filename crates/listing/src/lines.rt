//! A line for each user, group and object.
ghost use Rattle.std.specs.Prelude.{◌≡◌, ℕ, List, IfOk, string_bytes, codes};
ghost use Rattle.listing.specs.Listed.{each, line_of_user, line_of_group, text_of_object, line_of_object, grant_text, members_text};

use crate::sets::{members, rights_text};
use crate::words::kind_word;
use labels::Parts;
use std::alloc::{AllocError, Global};
use tables::sets::{GroupSet, ObjectSet, Rights};
use tables::types::{Object, USERS, User};

/// The groups of a user or an object.
fn groups_text(heap: Global, groups: GroupSet) -> Result<String, AllocError>
    ensures { IfOk result (λ s. string_bytes s ≡ members_text (codes ", groups") groups.0) }
{
    // Kept: one function writes the members of both sets, and asks them of the wider. `From<GroupSet> for ObjectSet` could stand only in
    // `tables`, where no group is an object; a generic `members` would be longer by a trait over the two `contains`, for this one call.
    members(heap, ", groups", ObjectSet(u64::from(groups.0)))
}

/// What has a line of its own in a table.
pub(crate) trait Entry {
    ghost line_of: { ℕ → Self → List ℕ };

    /// The line of entry `number`.
    fn line(&self, heap: Global, number: usize) -> Result<String, AllocError>
        ensures { IfOk result (λ s. string_bytes s ≡ line_of number self.now) };
}

impl Entry for User {
    ghost line_of = { line_of_user };

    fn line(&self, heap: Global, number: usize) -> Result<String, AllocError> {
        let mark = if self.admin { ", administrator" } else { "" };
        let groups = groups_text(heap, self.groups)?;
        let programs = members(heap, ", allow list", self.allowed)?;
        let floor = Parts::from(self.floor);
        let top = Parts::from(self.top);
        format!(in heap; "user {number}{mark}{groups}{programs}, range {floor} to {top}\n")
    }
}

/// A group's entry is its role.
impl Entry for Rights {
    ghost line_of = { line_of_group };

    fn line(&self, heap: Global, number: usize) -> Result<String, AllocError> {
        let role = rights_text(heap, *self)?;
        format!(in heap; "group {number}: {role}\n")
    }
}

/// The rights of each user that has some on an object.
fn grants(heap: Global, sets: &[Rights; USERS]) -> Result<String, AllocError>
    ensures { IfOk result (λ s. string_bytes s ≡ each (grant_text sets.now) 16) }
{
    let mut out = String::new(heap);
    for (user, set) in sets.iter().enumerate() {
        if set.0 != 0 {
            let rights = rights_text(heap, *set)?;
            write!(out, "; user {user}: {rights}")?;
        }
    }
    Ok(out)
}

/// What an object is: its number, kind, owner and label, and whether it is mixed.
fn object_text(heap: Global, number: u8, object: &Object) -> Result<String, AllocError>
    ensures { IfOk result (λ s. string_bytes s ≡ text_of_object number object.now) }
{
    let kind = kind_word(object.kind);
    let owner = object.owner;
    let label = Parts::from(object.label);
    let mark = if object.mixed { ", mixed" } else { "" };
    format!(in heap; "object {number}, {kind}, owner {owner}, label {label}{mark}")
}

/// The line of an object at a depth of the tree: its groups and the rights on it follow.
pub(crate) fn object_line(
    heap: Global,
    depth: u8,
    number: u8,
    object: &Object,
) -> Result<String, AllocError>
    ensures { IfOk result (λ s. string_bytes s ≡ line_of_object depth number object.now) }
{
    let space = "  ".repeat(heap, usize::from(depth))?;
    let text = object_text(heap, number, object)?;
    let groups = groups_text(heap, object.groups)?;
    let rights = grants(heap, &object.rights)?;
    format!(in heap; "{space}{text}{groups}{rights}\n")
}
