//! A run and a resave, each with a guard of its own.
ghost use Rattle.std.specs.Prelude.{◌≡◌};
ghost use Rattle.monitor.specs.Loads.{OneAnswer};
ghost use Rattle.session.specs.Sessions.{OneOutcome};
ghost use Rattle.guard_c.specs.Crossings.{TellsRun, TellsResave};

use crate::reports::{Report, report_end};
use labels::Scheme;
use monitor::Guard;
use session::{Stop, run};

/// Runs a roll and a call stream with a blank guard.
pub(crate) fn run_with<S: Scheme + Drop>(
    scheme: S,
    roll: &[u8],
    calls: &[u8],
    answers: &mut [u8],
) -> Report
    ensures told { TellsRun (S.Scheme.meaning scheme) roll.now calls.now answers.old answers.new result }
    ensures one { OneOutcome (S.Scheme.meaning scheme) }
{
    let mut guard = Guard::new(scheme);
    let outcome = run(&mut guard, roll, calls, answers);
    report_end(outcome.answered, outcome.end)
}

/// Loads a roll into a blank guard, and saves its tables.
pub(crate) fn resave_with<S: Scheme + Drop>(scheme: S, roll: &[u8], saved: &mut [u8]) -> Report
    ensures told { TellsResave (S.Scheme.meaning scheme) roll.now saved.old saved.new result }
    ensures one { OneAnswer (S.Scheme.meaning scheme) }
{
    let mut guard = Guard::new(scheme);
    if let Err(fault) = guard.load(roll) {
        return report_end(0, Err(Stop::BadRoll(fault)));
    }
    match guard.save(saved) {
        Ok(written) => report_end(written, Ok(())),
        Err(_) => report_end(0, Err(Stop::NoRoom)),
    }
}
