//! The guard at the two labels in use.
ghost use Rattle.std.specs.Prelude.{◌≡◌};
ghost use Rattle.labels.specs.Built.{house_of, old_of};
ghost use Rattle.labels.specs.House.{house};
ghost use Rattle.labels.specs.Old.{old};
ghost use Rattle.tables.specs.State.{blank};

use crate::guards::Guard;
use labels::{House, Old, house_label, old_label};

// Kept: each of the two is one line that names a label in use and pins what it means; what they share is `Guard::new`, which is generic.
/// A blank guard at the house label.
pub fn house_guard() -> Guard<House>
    ensures scheme { house_of result.scheme ≡ house }
    ensures tables { result.tables ≡ blank }
{
    Guard::new(house_label())
}

// Kept: as above.
/// A blank guard at the old label.
pub fn old_guard() -> Guard<Old>
    ensures scheme { old_of result.scheme ≡ old }
    ensures tables { result.tables ≡ blank }
{
    Guard::new(old_label())
}
