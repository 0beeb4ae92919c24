//! The calls that make, take away and move objects.
ghost use Rattle.std.specs.Prelude.{◌≡◌, true, Decides};
ghost use Rattle.rules.specs.Views.{Answers};

use crate::named::{may_alter, parties};
use crate::nests::{fits_under, is_removable};
use calls::types::{Call, Refusal};
use labels::Scheme;
use sound::views::View;
use tables::sets::Right;
use tables::types::{Kind, OBJECTS};

/// A subject makes an object.
// Kept: the kind is the byte of the call, which the answer is about.
pub(crate) fn create<S: Scheme>(
    v: &View<S>,
    subject: u8,
    parent: u8,
    number: u8,
    kind: u8,
    label: u64,
) -> Result<(), Refusal>
    ensures { Answers S.Scheme.meaning v.now (Call.Create subject parent number kind label) result }
{
    let (s, p) = parties(v.tables, subject, parent)?;
    // Kept: a function of the next three tests would have to promise three refusals by cases, which is longer than the tests.
    if number as usize >= OBJECTS {
        return Err(Refusal::NobodyThere);
    }
    if v.tables.object(number).is_some() {
        return Err(Refusal::SeatTaken);
    }
    if !v.scheme.label(label) {
        return Err(Refusal::NoLabel);
    }
    let kind = Kind::try_from(kind)?;
    let admin = v.tables.is_admin(s.user);
    // Kept: a match over the kind with guards, by a rule of the project.
    match p.kind {
        Kind::Container if !v.tables.has_right(s.user, p, Right::Create) => Err(Refusal::NoRight),
        Kind::Container if kind == Kind::Program && !admin => Err(Refusal::NotListed),
        Kind::Container if !v.scheme.flows(s.label, label) => Err(Refusal::WrongWay),
        Kind::Container if !v.scheme.flows(s.label, p.label) => Err(Refusal::WrongWay),
        Kind::Container if !v.held_above(parent, label) => Err(Refusal::WontNest),
        Kind::Container => Ok(()),
        _ => Err(Refusal::WrongKind),
    }
}

/// A subject takes an object away.
pub(crate) fn delete<S: Scheme>(v: &View<S>, subject: u8, object: u8) -> Result<(), Refusal>
    ensures { Answers S.Scheme.meaning v.now (Call.Delete subject object) result }
{
    let (s, o) = parties(v.tables, subject, object)?;
    may_alter(v, s, o, Right::Delete)?;
    if !v.scheme.flows(s.label, v.tables.label_of(o.parent)) {
        return Err(Refusal::WrongWay);
    }
    if !is_removable(v.tables, object) {
        return Err(Refusal::StillRigged);
    }
    Ok(())
}

/// Does label `from` flow to each of the three labels, and the second of them to the third?
fn flows_along<S: Scheme>(scheme: &S, from: u64, object: u64, old: u64, new: u64) -> bool
    ensures { Decides result (((S.Scheme.meaning scheme.now).flow from object ≡ true) × ((S.Scheme.meaning scheme.now).flow from old ≡ true) × ((S.Scheme.meaning scheme.now).flow from new ≡ true) × ((S.Scheme.meaning scheme.now).flow old new ≡ true)) }
{
    scheme.flows(from, object)
        && scheme.flows(from, old)
        && scheme.flows(from, new)
        && scheme.flows(old, new)
}

/// A subject puts an object under another parent.
pub(crate) fn move_object<S: Scheme>(
    v: &View<S>,
    subject: u8,
    object: u8,
    parent: u8,
) -> Result<(), Refusal>
    ensures { Answers S.Scheme.meaning v.now (Call.Move subject object parent) result }
{
    let (s, o) = parties(v.tables, subject, object)?;
    let q = v.tables.object(parent).ok_or(Refusal::NobodyThere)?;
    let old = v.tables.label_of(o.parent);
    // Kept: as in `create`.
    match q.kind {
        Kind::Container if !v.tables.has_right(s.user, o, Right::Delete) => Err(Refusal::NoRight),
        Kind::Container if !v.tables.has_right(s.user, q, Right::Create) => Err(Refusal::NoRight),
        Kind::Container if !flows_along(v.scheme, s.label, o.label, old, q.label) => {
            Err(Refusal::WrongWay)
        }
        Kind::Container if !fits_under(v, object, o.label, parent) => { Err(Refusal::WontNest) }
        Kind::Container => Ok(()),
        _ => Err(Refusal::WrongKind),
    }
}
