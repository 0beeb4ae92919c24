//! The marked examples.
ghost use Rattle.std.specs.Prelude.{◌≡◌, length};
ghost use Rattle.labels.specs.Marked.{marked, MarkedStand};

/// How many marked examples there are; each of them stands.
pub fn marked_examples() -> usize
    ensures rows { result ≡ length marked }
    ensures stand { MarkedStand }
{
    13
}
