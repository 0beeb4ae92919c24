//! A guard is made, loaded and saved.
ghost use Rattle.std.specs.Prelude.{◌≡◌, IfOk, MatchResult, OnOk};
ghost use Rattle.tables.specs.State.{blank};
ghost use Rattle.saving.specs.Saves.{saved, Stored, Refused};
ghost use Rattle.histories.specs.Kept.{Kept};
ghost use Rattle.histories.specs.Promises.{AllSecure};
ghost use Rattle.histories.specs.Faithful.{AllFaithful};
ghost use Rattle.monitor.specs.Loads.{Tells, Loads, OneAnswer, Steady, Returns};
ghost use Rattle.monitor.specs.Guards.{within};

use super::Guard;
use crate::faults::RollFault;
use labels::Scheme;
use roll::read_tables;
use saving::{NoRoom, save};
use sound::views::View;
use tables::types::Tables;

/// The tables that a roll says, where they are sound.
fn load_tables<S: Scheme>(scheme: &S, bytes: &[u8]) -> Result<Tables, RollFault>
    ensures { Tells (S.Scheme.meaning scheme.now) bytes.now result }
{
    let tables = read_tables(bytes)?;
    let view = View {
        scheme,
        tables: &tables,
    };
    view.first_failing().map_or(Ok(tables), |clause| {
        Err(RollFault::Unsound(clause, bytes.len()))
    })
}

// Kept: blank or sound is said of `new` and `load` each, since no type can say it (see `Guard`); the scheme that stays is a clause of `load` alone.
impl<S: Scheme> Guard<S> {
    /// A blank guard.
    pub fn new(scheme: S) -> Guard<S>
        ensures scheme { result.scheme ≡ scheme }
        ensures tables { result.tables ≡ blank }
        ensures steady { within S.Scheme.meaning result Steady }
        ensures kept { within S.Scheme.meaning result Kept }
    {
        Guard {
            scheme,
            tables: Tables::blank(),
        }
    }

    /// Takes a roll in place of every table, or refuses it and is blank. Whatever calls follow on a roll that was taken, no promise is broken.
    pub fn load(&mut self, bytes: &[u8]) -> Result<(), RollFault>
        ensures loads { Loads (S.Scheme.meaning self.old.scheme) bytes.now result self.new.tables }
        ensures one { OneAnswer (S.Scheme.meaning self.old.scheme) }
        ensures scheme { self.new.scheme ≡ self.old.scheme }
        ensures steady { within S.Scheme.meaning self.new Steady }
        ensures kept { within S.Scheme.meaning self.new Kept }
        ensures saved { OnOk result (saved self.new.tables ≡ bytes.now) }
        ensures secure { OnOk result (within S.Scheme.meaning self.new AllSecure) }
        ensures faithful { OnOk result (within S.Scheme.meaning self.new AllFaithful) }
    {
        self.tables = Tables::blank();
        self.tables = load_tables(&self.scheme, bytes)?;
        Ok(())
    }

    /// The tables, to look at.
    pub fn tables(&self) -> &Tables
        ensures { result.now ≡ self.now.tables }
    {
        &self.tables
    }

    /// Writes the tables but for the subjects into the front of a buffer, and answers how many bytes they took. A buffer that is too short is
    /// left alone.
    pub fn save(&self, buf: &mut [u8]) -> Result<usize, NoRoom>
        ensures saves { MatchResult result (Stored (saved self.now.tables) buf.old buf.new) (λ _. Refused (saved self.now.tables) buf.old buf.new) }
        ensures blank { self.now.tables ≡ blank → IfOk result (λ n. n ≡ 0) }
        ensures back { within S.Scheme.meaning self.now Steady → within S.Scheme.meaning self.now Returns buf.new result }
    {
        save(&self.tables, buf)
    }
}
