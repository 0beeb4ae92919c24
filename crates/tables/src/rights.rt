//! Who has which right on an object.
ghost use Rattle.std.specs.Prelude.{◌≡◌, Decides, slice_index_or};
ghost use Rattle.tables.specs.Rights.{HasRight, Shared};
ghost use Rattle.tables.specs.Sets.{has};
ghost use Rattle.tables.specs.State.{user as user_of, no_rights};

use crate::sets::{GroupSet, Right, Rights};
use crate::slots::slot;
use crate::types::{GROUPS, Object, Tables};

/// The set of rights that an object has for `user`: none past the users.
fn entry_of(rights: &[Rights], user: u8) -> Rights
    ensures { result ≡ slice_index_or rights.now user no_rights }
{
    rights.get(user as usize).copied().unwrap_or(Rights(0))
}

/// Has some group that is in both sets the right in its role?
fn shares(roles: &[Option<Rights>; GROUPS], mine: GroupSet, its: GroupSet, right: Right) -> bool
    ensures { Decides result (Shared roles.now mine.0 its.0 right) }
{
    let mut both = mine.meet(its);
    // Kept: a loop over the members. A chain over all sixteen numbers was tried, and misses the bar of speed where groups are shared; with `from_fn`
    // over `take_lowest` the proof didn't close, since such an iterator is not known to end.
    while let Some(g) = both.take_lowest() {
        if slot(roles, g).is_some_and(|role| role.contains(right)) {
            return true;
        }
    }
    false
}

impl Tables {
    /// Is `user` an administrator? One that does not exist is none.
    pub fn is_admin(&self, user: u8) -> bool
        ensures { result ≡ (user_of self.now user).admin }
    {
        self.user(user).is_some_and(|x| x.admin)
    }

    /// The groups that `user` is in: none if it does not exist.
    fn groups_of(&self, user: u8) -> GroupSet
        ensures { result ≡ (user_of self.now user).groups }
    {
        self.user(user).map_or(GroupSet(0), |x| x.groups)
    }

    /// Is `program` on the allow list of `user`? One that does not exist has an empty list.
    pub fn is_listed(&self, user: u8, program: u8) -> bool
        ensures { result ≡ has (user_of self.now user).allowed.0 program }
    {
        self.user(user).is_some_and(|x| x.allowed.contains(program))
    }

    /// Has `user` the right on `object`: as its owner, as an administrator, in the object's set for it, or through a group of both?
    #[inline(always)]
    pub fn has_right(&self, user: u8, object: &Object, right: Right) -> bool
        ensures { Decides result (HasRight self.now user object.now right) }
    {
        object.owner == user
            || self.is_admin(user)
            || entry_of(&object.rights, user).contains(right)
            || shares(&self.groups, self.groups_of(user), object.groups, right)
    }
}
