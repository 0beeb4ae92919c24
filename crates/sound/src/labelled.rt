//! Clause (b): all labels are labels of the scheme, and each floor flows to its top.
ghost use Rattle.std.specs.Prelude.{Decides};
ghost use Rattle.sound.specs.Sound.{Labelled, RangeStands};
ghost use Rattle.sound.specs.Views.{seen};

use crate::views::View;
use labels::Scheme;
use tables::types::User;

impl<S: Scheme> View<'_, S> {
    /// Are this user's floor and top labels, and does the floor flow to the top?
    fn range_stands(&self, x: &User) -> bool
        ensures { Decides result (RangeStands (S.Scheme.meaning self.now.scheme.now) x.now) }
    {
        self.scheme.label(x.floor) && self.scheme.label(x.top) && self.scheme.flows(x.floor, x.top)
    }

    /// Are all labels labels of the scheme, and does each floor flow to its top?
    pub(crate) fn labels_hold(&self) -> bool
        ensures { Decides result (seen S.Scheme.meaning self.now Labelled) }
    {
        let (scheme, t) = (self.scheme, self.tables);
        t.users.iter().flatten().all(|x| self.range_stands(x))
            && t.subjects.iter().flatten().all(|x| scheme.label(x.label))
            && t.objects.iter().flatten().all(|x| scheme.label(x.label))
    }
}
