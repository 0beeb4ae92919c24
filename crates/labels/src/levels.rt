//! Levels: the labels are 0 to a greatest level.
ghost use Rattle.std.specs.Prelude.{◌<◌};

pub mod answers;

#[derive(Clone, Copy)]
pub struct Level {
    max: u16,
    ghost small: { max < 65536 },
}
