//! What a cursor reads.
ghost use Rattle.std.specs.Prelude.{◌≡◌, [], length, if◌then◌else◌, MatchResult, ◌==◌};
ghost use Rattle.byte_cursor.specs.Bytes.{left, Took, Part, Short, Number, Field};

use super::{Cursor, CursorFault};
use crate::little::Little;

/// The number of a field that is not there.
fn absent<T: Little<N>, const N: usize>() -> T
    ensures { T.value result ≡ 0 }
{
    T::ZERO
}

impl<'a> Cursor<'a> {
    /// At the first of the bytes.
    pub fn new(bytes: &'a [u8]) -> Cursor<'a>
        ensures bytes { result.bytes.now ≡ bytes.now }
        ensures place { result.place ≡ 0 }
        ensures first { result.first ≡ 0 }
    {
        Cursor {
            bytes,
            first: 0,
            place: 0,
        }
    }

    /// A record begins here.
    pub fn begin(&mut self)
        ensures nothing { Took self.old self.new [] }
        ensures first { self.new.first ≡ self.old.place }
    {
        self.first = self.place;
    }

    /// Where the record begins.
    pub fn first(&self) -> usize
        ensures { result ≡ self.now.first }
    {
        self.first
    }

    /// Where reading goes on.
    pub fn place(&self) -> usize
        ensures { result ≡ self.now.place }
    {
        self.place
    }

    /// Nothing is left.
    pub fn at_end(&self) -> bool
        ensures { result ≡ (length (left self.now) == 0) }
    {
        self.left().is_empty()
    }

    /// The next `n` bytes.
    pub fn part(&mut self, n: usize) -> Result<&'a [u8], CursorFault>
        ensures { MatchResult result (λ p. Part n self.old self.new p.now) (Short n self.old self.new) }
    {
        let (front, _) = self.left().split_at_checked(n).ok_or(self.fault())?;
        self.place += n;
        Ok(front)
    }

    /// The next `N` bytes.
    pub fn array<const N: usize>(&mut self) -> Result<&'a [u8; N], CursorFault>
        ensures { MatchResult result (λ p. Part N self.old self.new p.now) (Short N self.old self.new) }
    {
        let (front, _) = self.left().split_first_chunk().ok_or(self.fault())?;
        self.place += N;
        Ok(front)
    }

    /// The number in the next bytes.
    pub fn number<T: Little<N>, const N: usize>(&mut self) -> Result<T, CursorFault>
        ensures { MatchResult result (λ v. Number N self.old self.new (T.value v)) (Short N self.old self.new) }
    {
        Ok(T::from_bytes(self.array::<N>()?))
    }

    /// The number of a field that is `there`, else 0.
    pub fn field<T: Little<N>, const N: usize>(&mut self, there: bool) -> Result<T, CursorFault>
        ensures { MatchResult result (λ v. Field N there self.old self.new (T.value v)) (Short (if there then N else 0) self.old self.new) }
    {
        if there { self.number() } else { Ok(absent()) }
    }

    /// The bytes that are yet to be read.
    fn left(&self) -> &'a [u8]
        ensures { result.now ≡ left self.now }
    {
        &self.bytes[self.place..]
    }

    /// The bytes ended inside this record.
    fn fault(&self) -> CursorFault
        ensures { result.first ≡ self.now.first }
    {
        CursorFault { first: self.first }
    }
}
