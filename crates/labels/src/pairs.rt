//! A number cut in two, each part a label of a scheme of its own.
ghost use Rattle.std.specs.Prelude.{◌≤◌};

pub mod answers;

#[derive(Drop)]
pub struct Pair<A, B> {
    low: A,
    high: B,
    cut: u32,
    ghost inside: { (1 ≤ cut) × (cut ≤ 63) },
}
