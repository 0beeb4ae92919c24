//! The old integrity label, from untrusted 0 to system 4.
ghost use Rattle.std.specs.Prelude.{◌≡◌};
ghost use Rattle.labels.specs.Built.{old_of};
ghost use Rattle.labels.specs.Old.{old, AnswersByIntegrity};

use crate::levels::Level;
use crate::turns::Turned;

pub type Old = Turned<Level>;

/// The most trusted level.
const SYSTEM: u16 = 4;

pub fn old_label() -> Old
    ensures meaning { old_of result ≡ old }
    ensures integrity { AnswersByIntegrity (old_of result) }
{
    Turned::new(Level::new(SYSTEM))
}
