//! The calls that set rights and allow lists.
ghost use Rattle.rules.specs.Views.{Answers};

use crate::named::{may_alter, parties};
use calls::types::{Call, Refusal};
use labels::Scheme;
use sound::views::View;
use tables::sets::Right;
use tables::types::Kind;

/// The set of all seven rights: a greater byte has bit 7.
const ALL_RIGHTS: u8 = 127;

/// A subject gives a user a set of rights on an object.
pub(crate) fn rights<S: Scheme>(
    v: &View<S>,
    subject: u8,
    object: u8,
    user: u8,
    mask: u8,
) -> Result<(), Refusal>
    ensures { Answers S.Scheme.meaning v.now (Call.Rights subject object user mask) result }
{
    let (s, o) = parties(v.tables, subject, object)?;
    v.tables.user(user).ok_or(Refusal::NobodyThere)?;
    if mask > ALL_RIGHTS {
        return Err(Refusal::WrongKind);
    }
    may_alter(v, s, o, Right::ChangeRights)
}

/// A subject puts a program on the allow list of a user.
pub(crate) fn allow<S: Scheme>(
    v: &View<S>,
    subject: u8,
    user: u8,
    program: u8,
) -> Result<(), Refusal>
    ensures { Answers S.Scheme.meaning v.now (Call.Allow subject user program) result }
{
    let (s, o) = parties(v.tables, subject, program)?;
    v.tables.user(user).ok_or(Refusal::NobodyThere)?;
    // Kept: a match over the kind with guards, by a rule of the project.
    match o.kind {
        Kind::Program if v.tables.is_admin(s.user) => Ok(()),
        Kind::Program => Err(Refusal::NotListed),
        _ => Err(Refusal::WrongKind),
    }
}

/// A subject takes a program off the allow list of a user, which asks what putting it on the list asks.
pub(crate) fn bar<S: Scheme>(v: &View<S>, subject: u8, user: u8, program: u8) -> Result<(), Refusal>
    ensures { Answers S.Scheme.meaning v.now (Call.Bar subject user program) result }
{
    allow(v, subject, user, program)
}
