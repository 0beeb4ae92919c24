//! Reading the tables by number.
ghost use Rattle.std.specs.Prelude.{◌≡◌};
ghost use Rattle.std.specs.Option.{option_map};
ghost use Rattle.tables.specs.State.{user_at, group_at, subject_at, object_at, object, blank};

use crate::sets::Rights;
use crate::slots::slot;
use crate::types::{GROUPS, OBJECTS, Object, SUBJECTS, Subject, Tables, USERS, User};

// Kept: a reader for each table, since what they share is `slot`, and each is one line.
impl Tables {
    /// Tables with every slot empty.
    pub fn blank() -> Tables
        ensures { result ≡ blank }
    {
        Tables {
            users: [None; USERS],
            groups: [None; GROUPS],
            subjects: [None; SUBJECTS],
            objects: [None; OBJECTS],
        }
    }

    /// User `u`, if there is one.
    pub fn user(&self, u: u8) -> Option<&User>
        ensures { option_map (λ x. x.now) result ≡ user_at self.now u }
    {
        slot(&self.users, u)
    }

    /// The role of group `g`, if there is one.
    pub fn group(&self, g: u8) -> Option<Rights>
        ensures { result ≡ group_at self.now g }
    {
        slot(&self.groups, g).copied()
    }

    /// Subject `s`, if there is one.
    pub fn subject(&self, s: u8) -> Option<&Subject>
        ensures { option_map (λ x. x.now) result ≡ subject_at self.now s }
    {
        slot(&self.subjects, s)
    }

    /// Object `o`, if there is one.
    pub fn object(&self, o: u8) -> Option<&Object>
        ensures { option_map (λ x. x.now) result ≡ object_at self.now o }
    {
        slot(&self.objects, o)
    }

    /// The label of object `o`: 0 if there is no such object.
    pub fn label_of(&self, o: u8) -> u64
        ensures { result ≡ (object self.now o).label }
    {
        self.object(o).map_or(0, |x| x.label)
    }
}
