//! The calls of subjects that come, go, read and write.
ghost use Rattle.std.specs.Prelude.{◌≡◌, Decides};
ghost use Rattle.tables.specs.State.{user as user_of};
ghost use Rattle.sound.specs.Nesting.{InRange};
ghost use Rattle.sound.specs.Views.{seen};
ghost use Rattle.rules.specs.Views.{Answers};

use crate::named::{alter, parties};
use calls::types::{Call, Refusal};
use labels::Scheme;
use sound::views::View;
use tables::sets::Right;
use tables::types::{Kind, SUBJECTS};

/// Is `label` in the range of `user`? One that does not exist has the range from 0 to 0.
fn in_range<S: Scheme>(v: &View<S>, user: u8, label: u64) -> bool
    ensures { Decides result (seen S.Scheme.meaning v.now (λ m t. InRange m (user_of t user) label)) }
{
    let (floor, top) = v.tables.user(user).map_or((0, 0), |u| (u.floor, u.top));
    v.scheme.flows(floor, label) && v.scheme.flows(label, top)
}

/// A user enters as a new subject.
pub(crate) fn enter<S: Scheme>(v: &View<S>, user: u8, number: u8, label: u64) -> Result<(), Refusal>
    ensures { Answers S.Scheme.meaning v.now (Call.Enter user number label) result }
{
    v.tables.user(user).ok_or(Refusal::NobodyThere)?;
    // Kept: a function of the next three tests would have to promise three refusals by cases, which is longer than the tests.
    if number as usize >= SUBJECTS {
        return Err(Refusal::NobodyThere);
    }
    if v.tables.subject(number).is_some() {
        return Err(Refusal::SeatTaken);
    }
    if !v.scheme.label(label) {
        return Err(Refusal::NoLabel);
    }
    if !in_range(v, user, label) {
        return Err(Refusal::OutOfRange);
    }
    Ok(())
}

/// A subject leaves.
pub(crate) fn leave<S: Scheme>(v: &View<S>, subject: u8) -> Result<(), Refusal>
    ensures { Answers S.Scheme.meaning v.now (Call.Leave subject) result }
{
    v.tables.subject(subject).ok_or(Refusal::NobodyThere)?;
    Ok(())
}

/// A subject reads an object.
// Kept: as `may_alter`, with the flow turned; one function for both would take the two labels at each call.
pub(crate) fn read<S: Scheme>(v: &View<S>, subject: u8, object: u8) -> Result<(), Refusal>
    ensures { Answers S.Scheme.meaning v.now (Call.Read subject object) result }
{
    let (s, o) = parties(v.tables, subject, object)?;
    if !v.tables.has_right(s.user, o, Right::Read) {
        return Err(Refusal::NoRight);
    }
    if !v.scheme.flows(o.label, s.label) {
        return Err(Refusal::WrongWay);
    }
    Ok(())
}

/// A subject writes to a file.
pub(crate) fn write<S: Scheme>(v: &View<S>, subject: u8, object: u8) -> Result<(), Refusal>
    ensures { Answers S.Scheme.meaning v.now (Call.Write subject object) result }
{
    alter(v, subject, object, Kind::File, Right::Write)
}

/// A subject launches a program as a new subject.
pub(crate) fn launch<S: Scheme>(
    v: &View<S>,
    subject: u8,
    program: u8,
    number: u8,
    label: u64,
) -> Result<(), Refusal>
    ensures { Answers S.Scheme.meaning v.now (Call.Launch subject program number label) result }
{
    let (s, o) = parties(v.tables, subject, program)?;
    // Kept: a function of the next three tests would have to promise three refusals by cases, which is longer than the tests.
    if number as usize >= SUBJECTS {
        return Err(Refusal::NobodyThere);
    }
    if v.tables.subject(number).is_some() {
        return Err(Refusal::SeatTaken);
    }
    if !v.scheme.label(label) {
        return Err(Refusal::NoLabel);
    }
    let listed = v.tables.is_listed(s.user, program);
    let admin = v.tables.is_admin(s.user);
    // Kept: a match over the kind with guards, by a rule of the project.
    match o.kind {
        Kind::Program if !v.tables.has_right(s.user, o, Right::Execute) => Err(Refusal::NoRight),
        Kind::Program if !listed && !admin => Err(Refusal::NotListed),
        Kind::Program if !v.scheme.flows(s.label, label) => Err(Refusal::WrongWay),
        Kind::Program if !v.scheme.flows(o.label, label) => Err(Refusal::WrongWay),
        Kind::Program if !in_range(v, s.user, label) => Err(Refusal::OutOfRange),
        Kind::Program => Ok(()),
        _ => Err(Refusal::WrongKind),
    }
}
