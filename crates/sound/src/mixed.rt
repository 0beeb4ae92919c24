//! Clause (h): only containers are mixed.
ghost use Rattle.std.specs.Prelude.{Decides};
ghost use Rattle.sound.specs.Sound.{MixedApart};

use tables::types::{Kind, Tables};

/// Are only containers mixed?
pub(crate) fn only_containers_mixed(t: &Tables) -> bool
    ensures { Decides result (MixedApart t.now) }
{
    t.objects
        .iter()
        .flatten()
        .all(|x| !x.mixed || x.kind == Kind::Container)
}
