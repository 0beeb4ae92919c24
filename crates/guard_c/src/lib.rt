//! The guard for C: a whole run, and a roll loaded and saved again, at each of the two labels in use. Nothing here allocates.
#![tactic(auto)]

ghost use Rattle.std.specs.Prelude.{◌≡◌};
ghost use Rattle.labels.specs.House.{house};
ghost use Rattle.labels.specs.Old.{old};
ghost use Rattle.monitor.specs.Loads.{OneAnswer};
ghost use Rattle.session.specs.Sessions.{OneOutcome};
ghost use Rattle.guard_c.specs.Crossings.{TellsRun, TellsResave};

mod reports;
mod runs;
mod schemes;

pub use reports::Report;
use runs::{resave_with, run_with};
use schemes::{HouseScheme, OldScheme};

// Kept: an export has no type parameter, so each question stands once for each label in use.
/// Loads a roll under the house label, answers the calls of a stream one after another, and writes the answers into the front of a buffer, a byte
/// each. A buffer with less than a byte for every two of the stream is refused before anything is done.
#[unsafe(no_mangle)]
pub extern "C" fn gunmetalmaul_run_house(roll: &[u8], calls: &[u8], answers: &mut [u8]) -> Report
    ensures told { TellsRun house roll.now calls.now answers.old answers.new result }
    ensures one { OneOutcome house }
{
    run_with(HouseScheme, roll, calls, answers)
}

/// The same under the old label.
#[unsafe(no_mangle)]
pub extern "C" fn gunmetalmaul_run_old(roll: &[u8], calls: &[u8], answers: &mut [u8]) -> Report
    ensures told { TellsRun old roll.now calls.now answers.old answers.new result }
    ensures one { OneOutcome old }
{
    run_with(OldScheme, roll, calls, answers)
}

/// Loads a roll under the house label, and saves the tables that it says into the front of a buffer. A buffer that is too short is left alone.
#[unsafe(no_mangle)]
pub extern "C" fn gunmetalmaul_resave_house(roll: &[u8], saved: &mut [u8]) -> Report
    ensures told { TellsResave house roll.now saved.old saved.new result }
    ensures one { OneAnswer house }
{
    resave_with(HouseScheme, roll, saved)
}

/// The same under the old label.
#[unsafe(no_mangle)]
pub extern "C" fn gunmetalmaul_resave_old(roll: &[u8], saved: &mut [u8]) -> Report
    ensures told { TellsResave old roll.now saved.old saved.new result }
    ensures one { OneAnswer old }
{
    resave_with(OldScheme, roll, saved)
}

#[cfg(test)]
mod tests {
    use super::*;

    /// An administrator, a mixed root, and a file in it.
    const ROLL: [u8; 42] = [
        0x19, 1, 0, 0, 0, 0, 0, 2, 0, 0, 0, 2, 0, 0, 0, 0, 0, 0, 0, 0x18, 3, 0, 0, 0, 0, 0, 2, 0,
        0, 0, 0x0A, 3, 1, 1, 1, 0, 0, 0, 1, 0, 0, 0,
    ];

    /// Enter, read, write, create, leave and read.
    const CALLS: [u8; 32] = [
        4, 1, 1, 0, 0, 0, 1, 0, 0, 0, 2, 4, 1, 0, 5, 0x1C, 6, 2, 1, 1, 0, 0, 0, 1, 0, 0, 0, 0, 3,
        2, 4, 1,
    ];

    // The sample of docs/RUN.md: its answers were worked out by hand from the rules.
    #[test]
    fn sample_run(rt: HostRuntime) {
        let mut answers = [255u8; 17];
        let told = gunmetalmaul_run_house(&ROLL, &CALLS, &mut answers);
        assert_eq!(rt; (told.written, told.number), (6, 0));
        assert_eq!(rt; &answers[..7], [0, 0, 4, 7, 0, 1, 255].as_slice());
    }
}
