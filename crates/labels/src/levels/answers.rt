//! What a scheme of levels answers.
ghost use Rattle.std.specs.Prelude.{◌≡◌};
ghost use Rattle.labels.specs.Built.{level_of};
ghost use Rattle.labels.specs.Schemes.{level};
ghost use Rattle.labels.specs.Lawful.{level_lawful};

use super::Level;
use crate::schemes::Scheme;

impl Level {
    pub fn new(max: u16) -> Level
        ensures { level_of result ≡ level max }
    {
        Level { max }
    }
}

impl Scheme for Level {
    ghost meaning = { level_of };

    ghost lawful = { λ s. level_lawful s.max s.small };

    fn label(&self, a: u64) -> bool {
        a <= u64::from(self.max)
    }

    fn flows(&self, a: u64, b: u64) -> bool {
        self.label(a) && self.label(b) && a <= b
    }

    fn holds(&self, p: u64, c: u64) -> bool {
        self.label(p) && self.label(c) && c <= p
    }
}
