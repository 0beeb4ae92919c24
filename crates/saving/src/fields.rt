//! The fields of a record: each is left out where it is zero.
ghost use Rattle.records.specs.Records.{field};
ghost use Rattle.records.specs.Rights.{bytes_of, rights_body};
ghost use Rattle.saving.specs.Takes.{Took};

use crate::sinks::Sink;
use byte_cursor::Little;
use records::marks_of;

// Kept: not a method of `Sink`, as a trait's method may have no const parameter.
/// A field of a number.
// Kept: each function here says of its own value what it is in bytes; a trait would say `Took` once and define those bytes in the same words.
pub(crate) fn put_number<S: Sink, T: Little<N>, const N: usize>(out: &mut S, number: T)
    ensures { Took S.Sink.puts out.old (field N (T.value number)) out.new }
{
    if number != T::ZERO {
        out.put(&number.to_bytes());
    }
}

/// The bytes that are not zero.
// Kept: as above.
fn put_bytes<S: Sink>(out: &mut S, bytes: &[u8])
    ensures { Took S.Sink.puts out.old (bytes_of bytes.now) out.new }
{
    for b in bytes {
        put_number(out, *b);
    }
}

/// The rights of the users: a map of those that have any, then a byte for each of these.
// Kept: as above.
pub(crate) fn put_rights<S: Sink>(out: &mut S, rights: &[u8; 16])
    ensures { Took S.Sink.puts out.old (rights_body rights.now) out.new }
{
    let users = marks_of(rights);
    if users != 0 {
        out.put(&users.to_le_bytes());
        put_bytes(out, rights);
    }
}
