//! The marked examples.
ghost use Rattle.std.specs.Prelude.{◌≡◌, length};
ghost use Rattle.monitor.specs.Marked.{marked, MarkedStand};

use labels::marked_examples as label_examples;

/// How many marked examples there are, of labels and of rolls; each of them stands.
pub fn marked_examples() -> usize
    ensures rows { result ≡ length marked }
    ensures stand { MarkedStand }
{
    label_examples() + 2
}
