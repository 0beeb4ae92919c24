//! Numbers as they stand in bytes.
ghost use Rattle.std.specs.Prelude.{◌≡◌, ℕ, ◌^◌, ◌<◌, ◌≤◌, ◌==◌, refl};
ghost use Rattle.std.proofs.Common.{lit≤};
ghost use Rattle.byte_cursor.specs.Bytes.{le};

/// A number in `N` bytes, the low one first.
pub trait Little<const N: usize>: Copy + PartialEq {
    const ZERO: Self;

    ghost ZERO: { Self };

    /// What number it is.
    ghost value: { Self → ℕ };

    fn from_bytes(bytes: &[u8; N]) -> Self
        ensures spells { le N (value result) ≡ bytes.entry.now }
        ensures fits { value result < 256 ^ N };

    fn to_bytes(self) -> [u8; N]
        ensures { result ≡ le N (value self) };

    ghost zero: { value ZERO ≡ 0 };

    /// Equal are those that are one number.
    ghost same: { (x y : Self) → Self.eq x y ≡ (value x == value y) };

    /// The bytes are few.
    ghost few: { N ≤ 8 };
}

// Kept: three impls that differ in the type alone: the kit's traits over bytes say nothing of the number, and no macro of ours may write impls.
impl Little<1> for u8 {
    const ZERO: u8 = 0;

    ghost ZERO = { 0 };

    ghost value = { λ x. x };

    ghost zero = { refl };

    ghost same = { λ x y. refl };

    ghost few = { lit≤ tt };

    fn from_bytes(bytes: &[u8; 1]) -> u8 {
        u8::from_le_bytes(*bytes)
    }

    fn to_bytes(self) -> [u8; 1] {
        u8::to_le_bytes(self)
    }
}

impl Little<2> for u16 {
    const ZERO: u16 = 0;

    ghost ZERO = { 0 };

    ghost value = { λ x. x };

    ghost zero = { refl };

    ghost same = { λ x y. refl };

    ghost few = { lit≤ tt };

    fn from_bytes(bytes: &[u8; 2]) -> u16 {
        u16::from_le_bytes(*bytes)
    }

    fn to_bytes(self) -> [u8; 2] {
        u16::to_le_bytes(self)
    }
}

impl Little<8> for u64 {
    const ZERO: u64 = 0;

    ghost ZERO = { 0 };

    ghost value = { λ x. x };

    ghost zero = { refl };

    ghost same = { λ x y. refl };

    ghost few = { lit≤ tt };

    fn from_bytes(bytes: &[u8; 8]) -> u64 {
        u64::from_le_bytes(*bytes)
    }

    fn to_bytes(self) -> [u8; 8] {
        u64::to_le_bytes(self)
    }
}
