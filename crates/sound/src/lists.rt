//! Clause (e): allow lists name programs.
ghost use Rattle.std.specs.Prelude.{Decides};
ghost use Rattle.sound.specs.Sound.{ProgramsOnly, Listed};

use crate::kinds::is_kind;
use tables::sets::ObjectSet;
use tables::types::{Kind, OBJECTS, Tables};

/// Is every object of this set a program?
fn all_programs(t: &Tables, set: ObjectSet) -> bool
    ensures { Decides result (ProgramsOnly t.now set.0) }
{
    (0..OBJECTS as u8).all(|o| !set.contains(o) || is_kind(t, Kind::Program, o))
}

/// Do the allow lists name programs?
pub(crate) fn lists_hold(t: &Tables) -> bool
    ensures { Decides result (Listed t.now) }
{
    t.users.iter().flatten().all(|x| all_programs(t, x.allowed))
}
