//! Clause (f): some user is an administrator.
ghost use Rattle.std.specs.Prelude.{Decides};
ghost use Rattle.sound.specs.Sound.{Administered};

use tables::types::Tables;

/// Is some user an administrator?
pub(crate) fn administrator_exists(t: &Tables) -> bool
    ensures { Decides result (Administered t.now) }
{
    t.users.iter().flatten().any(|x| x.admin)
}
