//! Clause (d): owners, and users with rights on an object, exist.
ghost use Rattle.std.specs.Prelude.{Decides};
ghost use Rattle.sound.specs.Sound.{HoldersAmong, Owned};

use tables::sets::Rights;
use tables::types::{Tables, USERS, User};

/// Does every user with a right in these sets exist?
fn holders_there(users: &[Option<User>; USERS], sets: &[Rights; USERS]) -> bool
    ensures { Decides result (HoldersAmong users.now sets.now) }
{
    sets.iter()
        .zip(users)
        .all(|(set, user)| set.0 == 0 || user.is_some())
}

/// Do owners, and users with rights on an object, exist?
pub(crate) fn owners_exist(t: &Tables) -> bool
    ensures { Decides result (Owned t.now) }
{
    t.objects.iter().flatten().all(|x| t.user(x.owner).is_some()
        && holders_there(&t.users, &x.rights))
}
