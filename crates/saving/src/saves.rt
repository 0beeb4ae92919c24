//! Saves the tables.
ghost use Rattle.std.specs.Prelude.{◌≡◌, ◌*◌, ◌≤◌, length, MatchResult};
ghost use Rattle.std.specs.List.{flat_map};
ghost use Rattle.records.specs.Records.{encode};
ghost use Rattle.roll.specs.Slots.{slots};
ghost use Rattle.saving.specs.Saves.{saved, Stored, Refused};
ghost use Rattle.saving.specs.Takes.{Took};

use crate::entries::{Entry, put_record};
use crate::sinks::{Counter, Sink, Writer};
use tables::types::Tables;

/// The buffer is too short.
#[derive(Clone, Copy, Debug, PartialEq)]
pub struct NoRoom;

// Kept: a refusal's number is got by a method of this name everywhere; `u8::from(NoRoom)` is no plainer.
impl NoRoom {
    /// The refusal's number.
    pub fn number(&self) -> u8
        ensures { result ≡ 15 }
    {
        15
    }
}

/// The slots that are not empty, in ascending order.
// Kept: each function here says of its own value what it is in bytes; a trait would say `Took` once and define those bytes in the same words.
fn put_slots<S: Sink, T: Entry>(out: &mut S, xs: &[Option<T>])
    requires { length xs.now ≤ 256 }
    ensures put { Took S.Sink.puts out.old (flat_map encode (slots T.Entry.written 0 xs.now)) out.new }
    ensures short { length (flat_map encode (slots T.Entry.written 0 xs.now)) ≤ T.Entry.most * length xs.now }
{
    for (i, slot) in xs.iter().enumerate() {
        if let Some(x) = slot {
            put_record(out, &x.record(i as u8));
        }
    }
}

/// The users, then the groups, then the objects.
// Kept: as above.
fn put_tables<S: Sink>(out: &mut S, t: &Tables)
    ensures put { Took S.Sink.puts out.old (saved t.now) out.new }
    ensures short { length (saved t.now) ≤ 2704 }
{
    put_slots(out, &t.users);
    put_slots(out, &t.groups);
    put_slots(out, &t.objects);
}

/// How many bytes the tables take: with 29 for a user, 4 for a group and 34 for an object at most, never more than 2704.
pub fn saved_len(t: &Tables) -> usize
    ensures is { result ≡ length (saved t.now) }
    ensures most { result ≤ 2704 }
{
    let mut counter = Counter { count: 0 };
    put_tables(&mut counter, t);
    counter.count
}

/// Writes the tables into the front of a buffer, and answers how many bytes they took. A buffer that is too short is left alone.
pub fn save(t: &Tables, buf: &mut [u8]) -> Result<usize, NoRoom>
    ensures { MatchResult result (Stored (saved t.now) buf.old buf.new) (λ _. Refused (saved t.now) buf.old buf.new) }
{
    let n = saved_len(t);
    if buf.len() < n {
        return Err(NoRoom);
    }
    let mut w = Writer {
        bytes: buf,
        place: 0,
    };
    put_tables(&mut w, t);
    Ok(n)
}
