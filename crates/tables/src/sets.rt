//! Rights, and sets of rights, of groups and of objects: a bit for each member.
ghost use Rattle.std.specs.Prelude.{◌≡◌, ℕ, ◌<◌, true, not, ◌&&◌, ◌||◌, ◌==◌, bit_and, MatchOption};
ghost use Rattle.tables.specs.Sets.{has, bit_of, inserted, without_element, Taken};

/// What a user may do to an object.
#[derive(Clone, Copy, PartialEq, Eq)]
pub enum Right {
    Read,
    Write,
    Create,
    Delete,
    ChangeRights,
    Execute,
    WriteAttributes,
}

/// A set of rights.
#[derive(Clone, Copy, PartialEq, Eq)]
pub struct Rights(pub u8);

/// A set of group numbers.
#[derive(Clone, Copy, PartialEq, Eq)]
pub struct GroupSet(pub u16);

/// A set of object numbers.
#[derive(Clone, Copy, PartialEq, Eq)]
pub struct ObjectSet(pub u64);

/// How many numbers a set has room for at most.
const WIDTH: u8 = 64;

/// Is `k` in `set`?
fn has_bit(set: u64, k: u8) -> bool
    ensures is { result ≡ has set k }
    ensures within { result ≡ true → k < 64 }
{
    k < WIDTH && set >> k & 1 == 1
}

impl Right {
    /// The bit of this right in a set of rights.
    fn bit(self) -> u8
        ensures { result ≡ bit_of self }
    {
        self as u8
    }
}

// Kept: three types of sets, of three widths, as the format has them; what they share is in `has_bit`, and each `contains` is one line.
impl Rights {
    /// Is `right` in this set?
    pub fn contains(self, right: Right) -> bool
        ensures { result ≡ has self.0 (bit_of right) }
    {
        has_bit(u64::from(self.0), right.bit())
    }
}

// Kept: as above.
impl GroupSet {
    /// The groups that are in both sets.
    pub fn meet(self, other: GroupSet) -> GroupSet
        ensures value { result.0 ≡ bit_and self.0 other.0 }
        ensures members { (j : ℕ) → has result.0 j ≡ (has self.0 j && has other.0 j) }
    {
        GroupSet(self.0 & other.0)
    }

    /// Takes the lowest group out of this set: `None` where the set is empty.
    pub(crate) fn take_lowest(&mut self) -> Option<u8>
        ensures { MatchOption result (self.old.0 ≡ 0) (Taken self.old.0 self.new.0) }
    {
        if self.0 == 0 {
            return None;
        }
        let g = self.0.trailing_zeros() as u8;
        self.0 &= self.0 - 1;
        Some(g)
    }

    /// Is group `g` in this set? A number past the groups is in none.
    pub fn contains(self, g: u8) -> bool
        ensures { result ≡ has self.0 g }
    {
        has_bit(u64::from(self.0), g)
    }
}

// Kept: as above.
impl ObjectSet {
    /// Is object `o` in this set? A number past the objects is in none.
    pub fn contains(self, o: u8) -> bool
        ensures { result ≡ has self.0 o }
    {
        has_bit(self.0, o)
    }

    /// Puts object `o` into this set. A number past the objects changes nothing.
    pub fn insert(&mut self, o: u8)
        ensures value { self.new.0 ≡ inserted self.old.0 o }
        ensures members { o < 64 → (j : ℕ) → has self.new.0 j ≡ (j == o || has self.old.0 j) }
    {
        if o < WIDTH {
            self.0 |= 1 << o;
        }
    }

    /// Takes object `o` out of this set. A number past the objects changes nothing.
    pub fn remove(&mut self, o: u8)
        ensures value { self.new.0 ≡ without_element self.old.0 o }
        ensures members { (j : ℕ) → has self.new.0 j ≡ (not (j == o) && has self.old.0 j) }
    {
        if has_bit(self.0, o) {
            self.0 ^= 1 << o;
        }
    }
}
