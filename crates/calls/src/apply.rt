//! What a granted call changes.
ghost use Rattle.std.specs.Prelude.{◌≡◌};
ghost use Rattle.tables.specs.State.{subject as subject_of};
ghost use Rattle.calls.specs.Effects.{created, effect};

use crate::types::Call;
use tables::sets::{GroupSet, Rights};
use tables::types::{Kind, Object, Subject, Tables, USERS};

/// The object that create makes.
// Kept: the kind is the byte of the call, which `created` speaks of.
fn new_object(owner: u8, parent: u8, kind: u8, label: u64) -> Object
    ensures { result ≡ created owner parent kind label }
{
    Object {
        kind: Kind::try_from(kind).unwrap_or(Kind::Program),
        parent,
        owner,
        label,
        mixed: false,
        groups: GroupSet(0),
        rights: [Rights(0); USERS],
    }
}

/// The user that `subject` acts for: 0 if there is no such subject.
fn user_of(t: &Tables, subject: u8) -> u8
    ensures { result ≡ (subject_of t.now subject).user }
{
    t.subject(subject).map_or(0, |s| s.user)
}

/// Changes the tables as a granted call does.
#[inline(always)]
pub fn apply(t: &mut Tables, call: Call)
    ensures { t.new ≡ effect t.old call }
{
    // Kept: the calls are a closed set, and each sets something else: one match over the enum is the plain form.
    match call {
        Call::Enter {
            user,
            number,
            label,
        } => t.add_subject(
            number,
            Subject {
                user,
                label,
                program: None,
            },
        ),
        Call::Launch {
            subject,
            program,
            number,
            label,
        } => {
            let user = user_of(t, subject);
            t.add_subject(
                number,
                Subject {
                    user,
                    label,
                    program: Some(program),
                },
            );
        }
        Call::Leave { subject } => t.remove_subject(subject),
        Call::Read { .. } | Call::Write { .. } => {}
        Call::Create {
            subject,
            parent,
            number,
            kind,
            label,
        } => {
            let owner = user_of(t, subject);
            t.add_object(number, new_object(owner, parent, kind, label));
        }
        Call::Delete { object, .. } => t.remove_object(object),
        Call::Move { object, parent, .. } => t.set_parent(object, parent),
        Call::Raise { object, label, .. } => t.set_label(object, label),
        Call::Mix { object, .. } => t.set_mixed(object, true),
        Call::Unmix { object, .. } => t.set_mixed(object, false),
        Call::Rights {
            object,
            user,
            mask,
            ..
        } => t.set_rights(object, user, Rights(mask)),
        Call::Allow { user, program, .. } => t.allow(user, program),
        Call::Bar { user, program, .. } => t.bar(user, program),
    }
}
