//! What a pair of schemes answers.
ghost use Rattle.std.specs.Prelude.{◌≡◌, ◌/◌, ◌%◌, ◌^◌, min, max};
ghost use Rattle.labels.specs.Built.{pair_of};
ghost use Rattle.labels.specs.Schemes.{pair};
ghost use Rattle.labels.specs.Lawful.{pair_lawful};

use super::Pair;
use crate::schemes::Scheme;

/// A cut outside these counts as the nearer of them.
const FIRST_CUT: u32 = 1;

const LAST_CUT: u32 = 63;

impl<A, B> Pair<A, B> {
    /// The low and the high part of a number.
    fn split(&self, a: u64) -> (u64, u64)
        ensures low { result.0 ≡ a % 2 ^ self.now.cut }
        ensures high { result.1 ≡ a / 2 ^ self.now.cut }
    {
        let size = 1u64 << self.cut;
        (a % size, a / size)
    }
}

impl<A: Scheme, B: Scheme> Pair<A, B> {
    pub fn new(low: A, high: B, cut: u32) -> Pair<A, B>
        ensures { pair_of A.Scheme.meaning B.Scheme.meaning result ≡ pair (max 1 (min cut 63)) (A.Scheme.meaning low) (B.Scheme.meaning high) }
    {
        Pair {
            low,
            high,
            cut: cut.clamp(FIRST_CUT, LAST_CUT),
        }
    }
}

impl<A: Scheme, B: Scheme> Scheme for Pair<A, B> {
    ghost meaning = { pair_of A.Scheme.meaning B.Scheme.meaning };

    ghost lawful = { λ s. pair_lawful s.cut (A.Scheme.lawful s.low) (B.Scheme.lawful s.high) };

    fn label(&self, a: u64) -> bool {
        let (low, high) = self.split(a);
        self.low.label(low) && self.high.label(high)
    }

    fn flows(&self, a: u64, b: u64) -> bool {
        let (low_a, high_a) = self.split(a);
        let (low_b, high_b) = self.split(b);
        self.low.flows(low_a, low_b) && self.high.flows(high_a, high_b)
    }

    fn holds(&self, p: u64, c: u64) -> bool {
        let (low_p, high_p) = self.split(p);
        let (low_c, high_c) = self.split(c);
        self.low.holds(low_p, low_c) && self.high.holds(high_p, high_c)
    }
}
