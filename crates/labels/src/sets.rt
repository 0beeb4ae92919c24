//! Categories: the labels are the sets of a number of categories, a bit for each.
ghost use Rattle.std.specs.Prelude.{◌≤◌};

pub mod answers;

#[derive(Clone, Copy)]
pub struct Categories {
    bits: u32,
    ghost few: { bits ≤ 32 },
}
