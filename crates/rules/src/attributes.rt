//! The calls that set the label and the mixed mark of an object.
ghost use Rattle.rules.specs.Views.{Answers};

use crate::named::{alter, may_alter, parties};
use crate::nests::nests_at;
use calls::types::{Call, Refusal};
use labels::Scheme;
use sound::views::View;
use tables::sets::Right;
use tables::types::Kind;

/// A subject marks a container as mixed.
pub(crate) fn mix<S: Scheme>(v: &View<S>, subject: u8, object: u8) -> Result<(), Refusal>
    ensures { Answers S.Scheme.meaning v.now (Call.Mix subject object) result }
{
    alter(v, subject, object, Kind::Container, Right::WriteAttributes)
}

/// A subject marks a container as unmixed, which asks what marking it as mixed asks, and that it holds what lies under it.
pub(crate) fn unmix<S: Scheme>(v: &View<S>, subject: u8, object: u8) -> Result<(), Refusal>
    ensures { Answers S.Scheme.meaning v.now (Call.Unmix subject object) result }
{
    mix(v, subject, object)?;
    if !v.holds_under(object, v.tables.label_of(object)) {
        return Err(Refusal::WontNest);
    }
    Ok(())
}

/// A subject gives an object another label.
pub(crate) fn raise<S: Scheme>(
    v: &View<S>,
    subject: u8,
    object: u8,
    label: u64,
) -> Result<(), Refusal>
    ensures { Answers S.Scheme.meaning v.now (Call.Raise subject object label) result }
{
    let (s, o) = parties(v.tables, subject, object)?;
    if !v.scheme.label(label) {
        return Err(Refusal::NoLabel);
    }
    may_alter(v, s, o, Right::WriteAttributes)?;
    if !v.scheme.flows(o.label, label) {
        return Err(Refusal::WrongWay);
    }
    if !nests_at(v, object, label) {
        return Err(Refusal::WontNest);
    }
    Ok(())
}
