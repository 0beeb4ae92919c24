//! The two labels in use as types with no value in them: what a label asks is made from its constants at each question, where a compiler can fold them.
ghost use Rattle.labels.specs.House.{house};
ghost use Rattle.labels.specs.Old.{old};
ghost use Rattle.guard_c.specs.Laws.{house_lawful, old_lawful};

use labels::{Scheme, house_label, old_label};

/// The house label.
#[derive(Clone, Copy)]
pub(crate) struct HouseScheme;

impl Scheme for HouseScheme {
    ghost meaning = { λ _. house };

    ghost lawful = { λ _. house_lawful };

    fn label(&self, a: u64) -> bool {
        house_label().label(a)
    }

    fn flows(&self, a: u64, b: u64) -> bool {
        house_label().flows(a, b)
    }

    fn holds(&self, p: u64, c: u64) -> bool {
        house_label().holds(p, c)
    }
}

/// The old label.
#[derive(Clone, Copy)]
pub(crate) struct OldScheme;

impl Scheme for OldScheme {
    ghost meaning = { λ _. old };

    ghost lawful = { λ _. old_lawful };

    fn label(&self, a: u64) -> bool {
        old_label().label(a)
    }

    fn flows(&self, a: u64, b: u64) -> bool {
        old_label().flows(a, b)
    }

    fn holds(&self, p: u64, c: u64) -> bool {
        old_label().holds(p, c)
    }
}
