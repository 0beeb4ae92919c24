//! A scheme whose flow goes the other way.
ghost use Rattle.std.specs.Prelude.{◌≡◌};
ghost use Rattle.labels.specs.Built.{turned_of};
ghost use Rattle.labels.specs.Schemes.{turned};
ghost use Rattle.labels.specs.Lawful.{turned_lawful};

use crate::schemes::Scheme;

#[derive(Drop)]
pub struct Turned<A>(A);

impl<A: Scheme> Turned<A> {
    pub fn new(below: A) -> Turned<A>
        ensures { turned_of A.Scheme.meaning result ≡ turned (A.Scheme.meaning below) }
    {
        Turned(below)
    }
}

impl<A: Scheme> Scheme for Turned<A> {
    ghost meaning = { turned_of A.Scheme.meaning };

    ghost lawful = { λ s. turned_lawful (A.Scheme.lawful s.0) };

    fn label(&self, a: u64) -> bool {
        self.0.label(a)
    }

    fn flows(&self, a: u64, b: u64) -> bool {
        self.0.flows(b, a)
    }

    fn holds(&self, p: u64, c: u64) -> bool {
        self.0.holds(p, c)
    }
}
