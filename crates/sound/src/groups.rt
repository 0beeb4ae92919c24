//! Clause (a): the groups that users and objects name exist.
ghost use Rattle.std.specs.Prelude.{Decides};
ghost use Rattle.sound.specs.Sound.{Grouped, GroupsThere};

use tables::sets::GroupSet;
use tables::types::{GROUPS, Tables};

/// Is every group of this set there?
fn groups_there(t: &Tables, set: GroupSet) -> bool
    ensures { Decides result (GroupsThere t.now set.0) }
{
    (0..GROUPS as u8).all(|g| !set.contains(g) || t.group(g).is_some())
}

/// Do the groups that users and objects name exist?
pub(crate) fn groups_exist(t: &Tables) -> bool
    ensures { Decides result (Grouped t.now) }
{
    t.users.iter().flatten().all(|x| groups_there(t, x.groups))
        && t.objects
            .iter()
            .flatten()
            .all(|x| groups_there(t, x.groups))
}
