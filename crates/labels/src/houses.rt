//! The house label: secrecy below, trust above, each a level and a set of categories.
ghost use Rattle.std.specs.Prelude.{◌≡◌, Some as Text};
ghost use Rattle.labels.specs.Built.{level_of, categories_of, turned_of, pair_of, house_of};
ghost use Rattle.labels.specs.Schemes.{level, categories, turned, pair};
ghost use Rattle.labels.specs.House.{house, AnswersByParts};
ghost use Rattle.labels.specs.Parts.{number, notation, ArePartsOf};

use crate::levels::Level;
use crate::pairs::Pair;
use crate::sets::Categories;
use crate::turns::Turned;
use std::fmt;

pub type House = Pair<Pair<Level, Categories>, Pair<Turned<Level>, Turned<Categories>>>;

/// The greatest level, of secrecy and of trust.
const TOP_LEVEL: u16 = 2;
/// How many categories there are, of secrecy and of trust.
const CATEGORIES: u32 = 8;
/// Each of the four parts of a number has so many bits.
const PART: u32 = 16;
/// The numbers below this have one part.
const PART_END: u64 = 1 << PART;
/// The numbers below this have two parts, those of one side.
const SIDE_END: u64 = 1 << (2 * PART);

pub fn house_label() -> House
    ensures meaning { house_of result ≡ house }
    ensures parts { AnswersByParts (house_of result) }
{
    let secrecy = secrecy_label();
    let trust = trust_label();
    Pair::new(secrecy, trust, 2 * PART)
}

// Kept: the two sides have two types, since trust is turned part by part; one function over what turns a part would be longer than both.
/// Secrecy: a level and a set of categories.
fn secrecy_label() -> Pair<Level, Categories>
    ensures { pair_of level_of categories_of result ≡ pair 16 (level 2) (categories 8) }
{
    Pair::new(Level::new(TOP_LEVEL), Categories::new(CATEGORIES), PART)
}

// Kept: as above.
/// Trust: the same, turned.
fn trust_label() -> Pair<Turned<Level>, Turned<Categories>>
    ensures { pair_of (turned_of level_of) (turned_of categories_of) result ≡ pair 16 (turned (level 2)) (turned (categories 8)) }
{
    Pair::new(
        Turned::new(Level::new(TOP_LEVEL)),
        Turned::new(Categories::new(CATEGORIES)),
        PART,
    )
}

/// The four parts of a house label's number.
#[derive(Clone, Copy)]
pub struct Parts {
    pub secrecy: u16,
    pub secrecy_categories: u16,
    pub trust: u16,
    pub trust_categories: u16,
}

impl From<u64> for Parts {
    ghost from_gives = { ArePartsOf };

    fn from(n: u64) -> Parts {
        let (low, high) = (n % SIDE_END, n / SIDE_END);
        Parts {
            secrecy: (low % PART_END) as u16,
            secrecy_categories: (low / PART_END) as u16,
            trust: (high % PART_END) as u16,
            trust_categories: (high / PART_END) as u16,
        }
    }
}

impl From<Parts> for u64 {
    ghost from_gives = { λ p n. n ≡ number p };

    fn from(p: Parts) -> u64 {
        let low = u64::from(p.secrecy) + PART_END * u64::from(p.secrecy_categories);
        let high = u64::from(p.trust) + PART_END * u64::from(p.trust_categories);
        low + SIDE_END * high
    }
}

/// A label, written `a,b;c,d`.
impl fmt::Display for Parts {
    ghost output = { λ p. Text (notation p) };

    fn fmt<W: fmt::Write>(&self, f: &mut fmt::Formatter<W>) -> fmt::Result {
        let (a, b) = (self.secrecy, self.secrecy_categories);
        let (c, d) = (self.trust, self.trust_categories);
        write!(f, "{a},{b};{c},{d}")
    }
}
