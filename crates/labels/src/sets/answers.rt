//! What a scheme of categories answers.
ghost use Rattle.std.specs.Prelude.{◌≡◌, min};
ghost use Rattle.labels.specs.Built.{categories_of};
ghost use Rattle.labels.specs.Schemes.{categories, ByCategory};
ghost use Rattle.labels.specs.Lawful.{categories_lawful};

use super::Categories;
use crate::schemes::Scheme;

/// More categories count as so many.
const MOST: u32 = 32;

impl Categories {
    pub fn new(bits: u32) -> Categories
        ensures meaning { categories_of result ≡ categories (min bits 32) }
        ensures each { ByCategory (min bits 32) (categories_of result) }
    {
        Categories {
            bits: bits.min(MOST),
        }
    }
}

impl Scheme for Categories {
    ghost meaning = { categories_of };

    ghost lawful = { λ s. categories_lawful s.bits s.few };

    fn label(&self, a: u64) -> bool {
        a < 1u64 << self.bits
    }

    fn flows(&self, a: u64, b: u64) -> bool {
        self.label(a) && self.label(b) && a & b == a
    }

    fn holds(&self, p: u64, c: u64) -> bool {
        self.label(p) && self.label(c) && c & p == c
    }
}
