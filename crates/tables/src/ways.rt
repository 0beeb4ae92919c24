//! Which objects lie under which.
ghost use Rattle.std.specs.Prelude.{Decides};
ghost use Rattle.tables.specs.Ways.{Below, Under, Above};

use crate::slots::slot;
use crate::types::{Object, Tables};

/// Does `x` lie under `p` in this table? The shortest way up visits no slot twice, so more steps than slots lead nowhere new.
fn climbs(objects: &[Option<Object>], x: u8, p: u8) -> bool
    ensures { Decides result (Below objects.now x p) }
{
    // Kept: parents are numbers of slots, since rolls and calls name objects so, and the tables are fixed.
    // Kept: a loop, since it leaves the walk at four places, and `successors` would still have to count the steps.
    // Kept: `held_above` of sound is the same walk with another test at each step; with a closure for it, it would have to promise the way that it took.
    let mut at = x;
    for _step in 0..objects.len() {
        let Some(object) = slot(objects, at) else {
            return false;
        };
        if at == 0 {
            return false;
        }
        if object.parent == p {
            return true;
        }
        at = object.parent;
    }
    false
}

impl Tables {
    /// Does object `x` lie under `p`: is `p` its parent, or does its parent lie under `p`? The root lies under nothing.
    pub fn lies_under(&self, x: u8, p: u8) -> bool
        ensures { Decides result (Under self.now x p) }
    {
        climbs(&self.objects, x, p)
    }

    /// Is `a` above `p`: is it `p`, or does `p` lie under it?
    pub fn is_above(&self, a: u8, p: u8) -> bool
        ensures { Decides result (Above self.now p a) }
    {
        a == p || self.lies_under(p, a)
    }
}
