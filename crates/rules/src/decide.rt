//! The deciding step, which every call goes through.
ghost use Rattle.rules.specs.Views.{Answers};

use crate::{access, attributes, grants, places};
use calls::types::{Call, Refusal};
use labels::Scheme;
use sound::views::View;

/// Is the call granted, or which refusal comes first?
pub fn decide<S: Scheme>(view: &View<S>, call: Call) -> Result<(), Refusal>
    ensures { Answers S.Scheme.meaning view.now call result }
{
    // Kept: the calls are a closed set, and each asks something else: one match over the enum is the plain form.
    match call {
        Call::Enter {
            user,
            number,
            label,
        } => access::enter(view, user, number, label),
        Call::Launch {
            subject,
            program,
            number,
            label,
        } => access::launch(view, subject, program, number, label),
        Call::Leave { subject } => access::leave(view, subject),
        Call::Read { subject, object } => access::read(view, subject, object),
        Call::Write { subject, object } => access::write(view, subject, object),
        Call::Create {
            subject,
            parent,
            number,
            kind,
            label,
        } => places::create(view, subject, parent, number, kind, label),
        Call::Delete { subject, object } => places::delete(view, subject, object),
        Call::Move {
            subject,
            object,
            parent,
        } => places::move_object(view, subject, object, parent),
        Call::Raise {
            subject,
            object,
            label,
        } => attributes::raise(view, subject, object, label),
        Call::Mix { subject, object } => attributes::mix(view, subject, object),
        Call::Unmix { subject, object } => attributes::unmix(view, subject, object),
        Call::Rights {
            subject,
            object,
            user,
            mask,
        } => grants::rights(view, subject, object, user, mask),
        Call::Allow {
            subject,
            user,
            program,
        } => grants::allow(view, subject, user, program),
        Call::Bar {
            subject,
            user,
            program,
        } => grants::bar(view, subject, user, program),
    }
}
