//! What takes the bytes of a roll: one sink counts them, the other writes them.
ghost use Rattle.std.specs.Prelude.{ℕ, List};
ghost use Rattle.saving.specs.Takes.{Took};
ghost use Rattle.saving.specs.Writes.{Counted, Written};

/// Takes bytes, run after run.
pub trait Sink {
    /// From the one state to the other it took these bytes.
    ghost puts: { Self → List ℕ → Self → Type 0 };

    /// Takes `xs` behind all that it took before.
    fn put(&mut self, xs: &[u8])
        ensures { Took puts self.old xs.now self.new };
}

/// Counts the bytes, up to the largest number.
#[derive(Clone, Copy)]
pub struct Counter {
    pub count: usize,
}

impl Sink for Counter {
    ghost puts = { Counted };

    fn put(&mut self, xs: &[u8]) {
        self.count = self.count.saturating_add(xs.len());
    }
}

// Kept: a slice that shrinks as it is filled would hide the bytes in front, of which the promise speaks.
/// Fills lent bytes from a place on, while there is room.
#[derive(Drop)]
pub struct Writer<'a> {
    pub bytes: &'a mut [u8],
    pub place: usize,
}

impl Sink for Writer<'_> {
    ghost puts = { Written };

    fn put(&mut self, xs: &[u8]) {
        let from = self.place;
        if from <= self.bytes.len() && xs.len() <= self.bytes.len() - from {
            self.bytes[from..from + xs.len()].copy_from_slice(xs);
            self.place = from + xs.len();
        }
    }
}
