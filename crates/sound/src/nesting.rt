//! Clause (g), each unmixed container holds the label of every object under it, and its two halves: what is held above, and held below.
ghost use Rattle.std.specs.Prelude.{◌≡◌, true, Decides};
ghost use Rattle.tables.specs.State.{object};
ghost use Rattle.tables.specs.Ways.{Under};
ghost use Rattle.sound.specs.Nesting.{Unmixed, Holds, HeldAbove, HoldsOne, HoldsUnder, HeldOver, HeldOverAt, Nested};
ghost use Rattle.sound.specs.Views.{seen};

use crate::ends::objects_end;
use crate::views::View;
use labels::Scheme;
use tables::types::Kind;

impl<S: Scheme> View<'_, S> {
    /// Does `a` hold label `l`, if it is an unmixed container?
    #[inline(always)]
    fn held_at(&self, a: u8, l: u64) -> bool
        ensures { Decides result (Unmixed self.now.tables.now a → seen S.Scheme.meaning self.now Holds a l) }
    {
        self.tables.object(a).is_none_or(|x| {
            x.kind != Kind::Container || x.mixed || self.scheme.holds(x.label, l)
        })
    }

    /// Does each unmixed container that is `p` or above it hold label `l`? The shortest way up visits no slot twice, so more steps than
    /// slots lead nowhere new.
    pub fn held_above(&self, p: u8, l: u64) -> bool
        ensures { Decides result (seen S.Scheme.meaning self.now HeldAbove p l) }
    {
        if !self.held_at(p, l) {
            return false;
        }
        // Kept: a loop, since it leaves the walk at four places, and `successors` would still have to count the steps; a chain over all objects, with
        // `is_above` for each, walks up once for each of 64.
        // Kept: `climbs` of tables is the same walk with another test at each step; with a closure for it, it would have to promise the way that it took.
        let mut at = p;
        for _step in 0..objects_end(&self.tables.objects) {
            let Some(object) = self.tables.object(at) else {
                return true;
            };
            if at == 0 {
                return true;
            }
            if !self.held_at(object.parent, l) {
                return false;
            }
            at = object.parent;
        }
        true
    }

    /// Does label `l` hold the label of `x`, if `x` lies under `o`?
    fn holds_one(&self, o: u8, l: u64, x: u8) -> bool
        ensures { Decides result (seen S.Scheme.meaning self.now HoldsOne o l x) }
    {
        self.tables.object(x).is_none_or(|y| !self.tables.lies_under(x, o)
            || self.scheme.holds(l, y.label))
    }

    /// Does label `l` hold the label of every object under `o`?
    pub fn holds_under(&self, o: u8, l: u64) -> bool
        ensures { Decides result (seen S.Scheme.meaning self.now HoldsUnder o l) }
    {
        (0..objects_end(&self.tables.objects)).all(|x| self.holds_one(o, l, x))
    }

    /// Does each unmixed container that object `o` lies under hold `label`?
    pub fn held_over_at(&self, o: u8, label: u64) -> bool
        ensures { Decides result (seen S.Scheme.meaning self.now HeldOverAt o label) }
    {
        if o == 0 {
            return true;
        }
        // Kept: `is_none_or` was tried, and its proof didn't close.
        let Some(x) = self.tables.object(o) else {
            return true;
        };
        self.held_above(x.parent, label)
    }

    /// Does each unmixed container over object `x` hold its label?
    fn held_over(&self, x: u8) -> bool
        ensures { Decides result (seen S.Scheme.meaning self.now HeldOver x) }
    {
        self.held_over_at(x, self.tables.label_of(x))
    }

    /// Does each unmixed container hold the label of every object under it, at any depth?
    pub fn labels_nest(&self) -> bool
        ensures { Decides result (seen S.Scheme.meaning self.now Nested) }
    {
        (0..objects_end(&self.tables.objects)).all(|x| self.held_over(x))
    }
}
