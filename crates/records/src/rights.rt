//! The rights field: a map of users, then a byte for each user in it.
ghost use Rattle.std.specs.Prelude.{◌≡◌, if◌then◌else◌, MatchOption, MatchResult, ◌≢◌};
ghost use Rattle.byte_cursor.specs.Bytes.{left, Part, Short};
ghost use Rattle.records.specs.Rights.{rights_size, Marked, marks_number, RightsForm, rights_body};

use byte_cursor::{Cursor, CursorFault};

/// All seven rights.
pub(crate) const ALL_RIGHTS: u8 = 127;

/// A byte for each user in `marks`, and 0 for the others: `None` where the bytes are not those of such rights.
fn spread(marks: u16, bytes: &[u8]) -> Option<[u8; 16]>
    ensures { MatchOption result ((rs : _) → Marked marks bytes.now rs → ⊥) (Marked marks bytes.now) }
{
    let mut rights = [0; 16];
    let mut left = bytes;
    for (user, right) in rights.iter_mut().enumerate() {
        if marks >> user & 1 == 1 {
            let (&byte, rest) = left.split_first()?;
            if byte == 0 || byte > ALL_RIGHTS {
                return None;
            }
            *right = byte;
            left = rest;
        }
    }
    left.is_empty().then_some(rights)
}

/// The rights that a part of a record writes: an empty part writes none.
pub fn read_rights(part: &[u8]) -> Option<[u8; 16]>
    ensures { MatchOption result ((rs : _) → RightsForm rs → part.now ≢ rights_body rs) (λ rs. RightsForm rs × (part.now ≡ rights_body rs)) }
{
    if part.is_empty() {
        return Some([0; 16]);
    }
    let (map, bytes) = part.split_first_chunk::<2>()?;
    let users = u16::from_le_bytes(*map);
    if users == 0 {
        return None;
    }
    spread(users, bytes)
}

/// The map of the users with rights.
pub fn marks_of(rights: &[u8; 16]) -> u16
    ensures { result ≡ marks_number rights.now }
{
    rights
        .iter()
        .enumerate()
        .map(|(user, right)| u16::from(*right != 0) << user)
        .sum()
}

/// The rights field as a part, where it is `there`: a map of users, and a byte for each user in it.
pub fn rights_part<'a>(c: &mut Cursor<'a>, there: bool) -> Result<&'a [u8], CursorFault>
    ensures { MatchResult result (λ p. Part (if there then rights_size (left c.old) else 0) c.old c.new p.now) (Short (if there then rights_size (left c.old) else 0) c.old c.new) }
{
    if !there {
        return c.part(0);
    }
    let mut ahead = *c;
    let users: u16 = ahead.number()?;
    c.part(2 + users.count_ones() as usize)
}
