//! Runs a roll and a call stream.
ghost use Rattle.std.specs.Prelude.{◌≡◌, ◌/◌, ◌≤◌, length};
ghost use Rattle.calls.specs.Refusals.{answer_number};
ghost use Rattle.histories.specs.Kept.{Kept};
ghost use Rattle.monitor.specs.Guards.{within};
ghost use Rattle.session.specs.Sessions.{Stretch, Ran, OneRun, OneOutcome};

use crate::outcomes::{Outcome, Stop};
use byte_cursor::Cursor;
use calls::types::Refusal;
use labels::Scheme;
use monitor::Guard;
use stream::next_call;

/// The number of an answer: 0 for a granted call, else that of the refusal.
// Kept: `Result` and `u8` are std's, so `From` between them cannot be written here; a trait for this and `Outcome::number` is longer than the two.
fn number_of(answer: Result<(), Refusal>) -> u8
    ensures { result ≡ answer_number answer }
{
    answer.err().map_or(0, |refusal| refusal.number())
}

/// Answers call after call, up to the end of the stream or its first bad call.
// Kept: what is kept, and the scheme that stays, are a clause each; a record of the two would be longer than both uses of it.
fn answer_all<S: Scheme>(guard: &mut Guard<S>, calls: &[u8], answers: &mut [u8]) -> Outcome
    requires { length calls.now / 2 ≤ length answers.old }
    ensures ran { Stretch (S.Scheme.meaning guard.old.scheme) guard.old.tables calls.now result.answered result.end answers.old answers.new guard.new.tables }
    ensures kept { within S.Scheme.meaning guard.old Kept → within S.Scheme.meaning guard.new Kept }
    ensures scheme { guard.new.scheme ≡ guard.old.scheme }
{
    let mut c = Cursor::new(calls);
    let mut answered = 0;
    // Kept: a count beside a cursor, as the outcome says it; an iterator of calls zipped with the buffer would need the count as well.
    while let Some(next) = next_call(&mut c) {
        match next {
            Ok(call) => {
                let answer = guard.call(call);
                answers[answered] = number_of(answer);
                answered += 1;
            }
            Err(fault) => {
                return Outcome {
                    answered,
                    end: Err(Stop::BadCall(fault)),
                };
            }
        }
    }
    Outcome {
        answered,
        end: Ok(()),
    }
}

// Kept: as at `answer_all`.
/// Loads a roll, answers the calls of a stream one after another, up to its end or its first bad call, and writes the answers into the front of a
/// buffer, a byte each. A buffer with less than a byte for every two of the stream is refused before anything is done.
pub fn run<S: Scheme>(
    guard: &mut Guard<S>,
    roll: &[u8],
    calls: &[u8],
    answers: &mut [u8],
) -> Outcome
    ensures ran { Ran (S.Scheme.meaning guard.old.scheme) roll.now calls.now result.answered result.end answers.old answers.new guard.old.tables guard.new.tables }
    ensures one { OneRun (S.Scheme.meaning guard.old.scheme) }
    ensures outcome { OneOutcome (S.Scheme.meaning guard.old.scheme) }
    ensures fits { result.answered ≤ length answers.new }
    ensures kept { within S.Scheme.meaning guard.old Kept → within S.Scheme.meaning guard.new Kept }
    ensures scheme { guard.new.scheme ≡ guard.old.scheme }
{
    if answers.len() < calls.len() / 2 {
        return Outcome {
            answered: 0,
            end: Err(Stop::NoRoom),
        };
    }
    if let Err(fault) = guard.load(roll) {
        return Outcome {
            answered: 0,
            end: Err(Stop::BadRoll(fault)),
        };
    }
    answer_all(guard, calls, answers)
}
