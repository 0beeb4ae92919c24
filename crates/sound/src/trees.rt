//! Clause (c): object 0 is a container and its own parent, every parent is a container, and parents lead to 0.
ghost use Rattle.std.specs.Prelude.{◌≡◌, ℕ, true, Decides};
ghost use Rattle.tables.specs.State.{has_object, object};
ghost use Rattle.sound.specs.Sound.{Placed, Rooted};

use crate::ends::objects_end;
use crate::kinds::is_kind;
use tables::types::{Kind, Tables};

/// Is object 0 its own parent?
fn root_returns(t: &Tables) -> bool
    ensures { Decides result ((object t.now 0).parent ≡ 0) }
{
    t.object(0).is_none_or(|x| x.parent == 0)
}

/// If `o` is there, is its parent a container, and does the way up lead to 0?
fn is_placed(t: &Tables, o: u8) -> bool
    ensures { Decides result (has_object t.now o ≡ true → Placed t.now o) }
{
    t.object(o).is_none_or(|x| {
        is_kind(t, Kind::Container, x.parent) && (o == 0 || t.lies_under(o, 0))
    })
}

/// Is every object placed?
fn all_placed(t: &Tables) -> bool
    ensures { Decides result ((o : ℕ) → has_object t.now o ≡ true → Placed t.now o) }
{
    (0..objects_end(&t.objects)).all(|o| is_placed(t, o))
}

/// Do the objects make a tree of containers under object 0?
pub(crate) fn tree_stands(t: &Tables) -> bool
    ensures { Decides result (Rooted t.now) }
{
    is_kind(t, Kind::Container, 0) && root_returns(t) && all_placed(t)
}
