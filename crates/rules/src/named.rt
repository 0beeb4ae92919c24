//! The subject that makes a call, the object that it names, and what lets the one alter the other.
ghost use Rattle.std.specs.Prelude.{◌≡◌, MatchResult};
ghost use Rattle.calls.specs.declared.types.Refusal.TheVariants.{NobodyThere};
ghost use Rattle.sound.specs.Views.{seen};
ghost use Rattle.rules.specs.Parties.{Found, Missing, Alters, altering};
ghost use Rattle.calls.specs.Calls.{Answered};
ghost use Rattle.calls.specs.Refusals.{answer_number};

use calls::types::Refusal;
use labels::Scheme;
use sound::views::View;
use tables::sets::Right;
use tables::types::{Kind, Object, Subject, Tables};

/// The subject and the object that a call names, if both are there.
pub(crate) fn parties(t: &Tables, subject: u8, object: u8) -> Result<(&Subject, &Object), Refusal>
    ensures { MatchResult result (λ p. Found t.now subject object p.0.now p.1.now) (λ e. (e ≡ NobodyThere) × Missing t.now subject object) }
{
    let s = t.subject(subject).ok_or(Refusal::NobodyThere)?;
    let o = t.object(object).ok_or(Refusal::NobodyThere)?;
    Ok((s, o))
}

/// May a subject alter an object: has its user this right on it, and does its label flow to the object's?
pub(crate) fn may_alter<S: Scheme>(
    v: &View<S>,
    s: &Subject,
    o: &Object,
    right: Right,
) -> Result<(), Refusal>
    ensures { seen S.Scheme.meaning v.now Alters s.now o.now right result }
{
    if !v.tables.has_right(s.user, o, right) {
        return Err(Refusal::NoRight);
    }
    if !v.scheme.flows(s.label, o.label) {
        return Err(Refusal::WrongWay);
    }
    Ok(())
}

/// May a subject alter an object, if it is of this kind, by this right?
pub(crate) fn alter<S: Scheme>(
    v: &View<S>,
    subject: u8,
    object: u8,
    kind: Kind,
    right: Right,
) -> Result<(), Refusal>
    ensures { seen S.Scheme.meaning v.now (λ m t. Answered (altering m t subject object kind right) (answer_number result)) }
{
    let (s, o) = parties(v.tables, subject, object)?;
    if o.kind != kind {
        return Err(Refusal::WrongKind);
    }
    may_alter(v, s, o, right)
}
