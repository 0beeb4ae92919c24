//! What the calls ask of the tree: that labels nest, and that an object can be taken away.
ghost use Rattle.std.specs.Prelude.{◌≡◌, Decides, ◌≢◌};
ghost use Rattle.tables.specs.Ways.{Above};
ghost use Rattle.sound.specs.Nesting.{Unmixed, HeldAbove, HoldsUnder, HeldOverAt};
ghost use Rattle.sound.specs.Views.{seen};
ghost use Rattle.calls.specs.Calls.{AllHeldAbove, Childless, Idle};

use labels::Scheme;
use sound::ends::objects_end;
use sound::views::View;
use tables::types::{Kind, Tables};

/// If object `o` is an unmixed container, does `label` hold what lies under it?
fn holds_inside<S: Scheme>(v: &View<S>, o: u8, label: u64) -> bool
    ensures { Decides result (Unmixed v.now.tables.now o → seen S.Scheme.meaning v.now HoldsUnder o label) }
{
    // Kept: the guard for mixed is one of a match over the kind by a rule of the project (docs/DECISIONS.md); with `is_none_or` around the match the
    // proof didn't close.
    let Some(x) = v.tables.object(o) else {
        return true;
    };
    match x.kind {
        Kind::Container if !x.mixed => v.holds_under(o, label),
        _ => true,
    }
}

/// Do labels nest with `label` at object `o`: does each unmixed container that it lies under hold `label`, and if it is one, does `label` hold what
/// lies under it?
pub(crate) fn nests_at<S: Scheme>(v: &View<S>, o: u8, label: u64) -> bool
    ensures { Decides result (seen S.Scheme.meaning v.now HeldOverAt o label × (Unmixed v.now.tables.now o → seen S.Scheme.meaning v.now HoldsUnder o label)) }
{
    v.held_over_at(o, label) && holds_inside(v, o, label)
}

/// Does each unmixed container that is `q` or above it hold everything under object `o`?
fn all_fit<S: Scheme>(v: &View<S>, o: u8, q: u8) -> bool
    ensures { Decides result (seen S.Scheme.meaning v.now AllHeldAbove o q) }
{
    (0..objects_end(&v.tables.objects)).all(|x| !v.tables.lies_under(x, o)
        || v.held_above(q, v.tables.label_of(x)))
}

/// Can object `o`, labelled `label`, be put under `q`: is `q` neither `o` nor under it, and does each unmixed container that is `q` or above it
/// hold `label` and everything under `o`?
pub(crate) fn fits_under<S: Scheme>(v: &View<S>, o: u8, label: u64, q: u8) -> bool
    ensures { Decides result ((Above v.now.tables.now q o → ⊥) × seen S.Scheme.meaning v.now HeldAbove q label × seen S.Scheme.meaning v.now AllHeldAbove o q) }
{
    !v.tables.is_above(o, q) && v.held_above(q, label) && all_fit(v, o, q)
}

/// Is `o` no object's parent?
fn is_childless(t: &Tables, o: u8) -> bool
    ensures { Decides result (Childless t.now o) }
{
    t.objects.iter().flatten().all(|y| y.parent != o)
}

/// Does no subject run from `o`?
fn is_idle(t: &Tables, o: u8) -> bool
    ensures { Decides result (Idle t.now o) }
{
    t.subjects.iter().flatten().all(|y| y.program != Some(o))
}

/// Can `o` be taken away: is it neither the root nor a parent, and does no subject run from it?
pub(crate) fn is_removable(t: &Tables, o: u8) -> bool
    ensures { Decides result ((o ≢ 0) × Childless t.now o × Idle t.now o) }
{
    o != 0 && is_childless(t, o) && is_idle(t, o)
}
