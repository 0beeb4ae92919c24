//! What every scheme answers, and the laws that its answers keep.
ghost use Rattle.std.specs.Prelude.{◌≡◌};
ghost use Rattle.labels.specs.Meaning.{Meaning, Lawful};

pub trait Scheme {
    ghost meaning: { Self → Meaning };

    /// Is this number a label?
    fn label(&self, a: u64) -> bool
        ensures { result ≡ (meaning self.now).label a };

    /// Does label `a` flow to label `b`?
    fn flows(&self, a: u64, b: u64) -> bool
        ensures { result ≡ (meaning self.now).flow a b };

    /// Does label `p` hold label `c`?
    fn holds(&self, p: u64, c: u64) -> bool
        ensures { result ≡ (meaning self.now).hold p c };

    ghost lawful: { (s : Self) → Lawful (meaning s) };
}
