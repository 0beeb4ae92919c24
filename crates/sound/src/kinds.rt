//! Of which kind an object is.
ghost use Rattle.std.specs.Prelude.{Decides};
ghost use Rattle.sound.specs.Sound.{IsKind};

use tables::types::{Kind, Tables};

/// Is `o` there, and of this kind?
pub(crate) fn is_kind(t: &Tables, kind: Kind, o: u8) -> bool
    ensures { Decides result (IsKind t.now kind o) }
{
    t.object(o).is_some_and(|x| x.kind == kind)
}
