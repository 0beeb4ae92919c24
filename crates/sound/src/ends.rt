//! Where the numbers of a table end.
ghost use Rattle.std.specs.Prelude.{◌≡◌, length};

use tables::types::{OBJECTS, Object, SUBJECTS, Subject};

/// Past every subject's number.
// Kept: one function generic in the length could not promise this, as a length above 255 is no u8; nothing here asks it now, but it is public.
pub fn subjects_end(subjects: &[Option<Subject>; SUBJECTS]) -> u8
    ensures { result ≡ length subjects.now }
{
    SUBJECTS as u8
}

/// Past every object's number.
// Kept: one function generic in the length could not promise this, as a length above 255 is no u8.
pub fn objects_end(objects: &[Option<Object>; OBJECTS]) -> u8
    ensures { result ≡ length objects.now }
{
    OBJECTS as u8
}
