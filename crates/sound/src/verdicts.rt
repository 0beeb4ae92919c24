//! Are the tables sound, and if not, which clause fails first?
ghost use Rattle.std.specs.Prelude.{Decides};
ghost use Rattle.std.specs.Option.{MatchOption};
ghost use Rattle.sound.specs.Sound.{Holding, Sound, FirstFailing};
ghost use Rattle.sound.specs.Views.{seen};

use crate::administrators::administrator_exists;
use crate::clauses::Clause;
use crate::groups::groups_exist;
use crate::lists::lists_hold;
use crate::mixed::only_containers_mixed;
use crate::owners::owners_exist;
use crate::trees::tree_stands;
use crate::views::View;
use labels::Scheme;

impl<S: Scheme> View<'_, S> {
    /// Does this clause hold?
    fn holds(&self, clause: Clause) -> bool
        ensures { Decides result (seen S.Scheme.meaning self.now (Holding clause)) }
    {
        // Kept: the clauses are a closed set, and each asks something else.
        match clause {
            Clause::Groups => groups_exist(self.tables),
            Clause::Labels => self.labels_hold(),
            Clause::Tree => tree_stands(self.tables),
            Clause::Owners => owners_exist(self.tables),
            Clause::Lists => lists_hold(self.tables),
            Clause::Administrator => administrator_exists(self.tables),
            Clause::Nesting => self.labels_nest(),
            Clause::Mixed => only_containers_mixed(self.tables),
        }
    }

    /// The first clause of soundness that fails: none if the tables are sound.
    pub fn first_failing(&self) -> Option<Clause>
        ensures { MatchOption result (seen S.Scheme.meaning self.now Sound) (seen S.Scheme.meaning self.now FirstFailing) }
    {
        Clause::ALL.into_iter().find(|clause| !self.holds(*clause))
    }
}
