//! The changes of the tables: each method sets what it names, and nothing else.
ghost use Rattle.std.specs.Prelude.{◌≡◌, map, set, Some, None, slice_set};
ghost use Rattle.std.specs.Option.{option_map};
ghost use Rattle.tables.specs.Changes.{put_subject, put_object, at_user, at_object, moved, relabelled, remixed, regranted, listing, unlisting, without_object};

use crate::sets::Rights;
use crate::slots::{put, slot};
use crate::types::{Object, Subject, Tables, User};

/// Takes object `o` off the allow list of each user.
fn strike(users: &mut [Option<User>], o: u8)
    ensures { users.new ≡ map (option_map (unlisting o)) users.old }
{
    // Kept: `iter_mut().flatten()` was tried, and its proof didn't close: behind an adapter of `iter_mut` nothing is known of the slots.
    for place in users.iter_mut() {
        if let Some(user) = place {
            user.allowed.remove(o);
        }
    }
}

// Kept: a method for each change, since calls name them so; what they share is `slot` and `put`, and each says what it sets.
impl Tables {
    /// Puts a subject into slot `n`.
    pub fn add_subject(&mut self, n: u8, subject: Subject)
        ensures { self.new ≡ put_subject self.old n (Some subject) }
    {
        put(&mut self.subjects, n, Some(subject));
    }

    /// Empties the slot of subject `n`.
    pub fn remove_subject(&mut self, n: u8)
        ensures { self.new ≡ put_subject self.old n None }
    {
        put(&mut self.subjects, n, None);
    }

    /// Puts an object into slot `n`.
    pub fn add_object(&mut self, n: u8, object: Object)
        ensures { self.new ≡ put_object self.old n (Some object) }
    {
        put(&mut self.objects, n, Some(object));
    }

    /// Empties the slot of object `o`, and takes it off every allow list.
    pub fn remove_object(&mut self, o: u8)
        ensures { self.new ≡ without_object self.old o }
    {
        strike(&mut self.users, o);
        put(&mut self.objects, o, None);
    }

    /// Moves object `o` under `p`.
    pub fn set_parent(&mut self, o: u8, p: u8)
        ensures { self.new ≡ at_object self.old o (moved p) }
    {
        let changed = slot(&self.objects, o).map(|x| Object { parent: p, ..*x });
        put(&mut self.objects, o, changed);
    }

    /// Gives object `o` the label `label`.
    pub fn set_label(&mut self, o: u8, label: u64)
        ensures { self.new ≡ at_object self.old o (relabelled label) }
    {
        let changed = slot(&self.objects, o).map(|x| Object { label, ..*x });
        put(&mut self.objects, o, changed);
    }

    /// Marks object `o` as mixed, or as unmixed.
    pub fn set_mixed(&mut self, o: u8, mixed: bool)
        ensures { self.new ≡ at_object self.old o (remixed mixed) }
    {
        let changed = slot(&self.objects, o).map(|x| Object { mixed, ..*x });
        put(&mut self.objects, o, changed);
    }

    /// Gives `user` the set `rights` on object `o`, in place of the set that it had.
    pub fn set_rights(&mut self, o: u8, user: u8, rights: Rights)
        ensures { self.new ≡ at_object self.old o (regranted user rights) }
    {
        let changed = slot(&self.objects, o).map(|x| {
            let mut object = *x;
            put(&mut object.rights, user, rights);
            object
        });
        put(&mut self.objects, o, changed);
    }

    /// Puts object `o` on the allow list of `user`.
    pub fn allow(&mut self, user: u8, o: u8)
        ensures { self.new ≡ at_user self.old user (listing o) }
    {
        let changed = slot(&self.users, user).map(|x| {
            let mut holder = *x;
            holder.allowed.insert(o);
            holder
        });
        put(&mut self.users, user, changed);
    }

    /// Takes object `o` off the allow list of `user`.
    pub fn bar(&mut self, user: u8, o: u8)
        ensures { self.new ≡ at_user self.old user (unlisting o) }
    {
        let changed = slot(&self.users, user).map(|x| {
            let mut holder = *x;
            holder.allowed.remove(o);
            holder
        });
        put(&mut self.users, user, changed);
    }
}
