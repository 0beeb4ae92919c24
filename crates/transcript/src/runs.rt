//! Runs a roll and a call stream, and tells how it went.
ghost use Rattle.std.specs.Prelude.{◌≡◌, ◌/◌, length, IfOk, string_bytes};
ghost use Rattle.labels.specs.House.{house};
ghost use Rattle.labels.specs.Old.{old};
ghost use Rattle.transcript.specs.Printed.{Printed};

use crate::lines::{answer_lines, last_line};
use labels::{Scheme, house_label, old_label};
use monitor::Guard;
use session::run;
use std::alloc::{AllocError, Global};

/// Runs a roll and a call stream with a buffer that has room, and tells how it went.
fn tell<S: Scheme>(
    heap: Global,
    guard: &mut Guard<S>,
    roll: &[u8],
    calls: &[u8],
    answers: &mut [u8],
) -> Result<String, AllocError>
    requires { length answers.old ≡ length calls.now / 2 }
    ensures { IfOk result (λ s. Printed (S.Scheme.meaning guard.old.scheme) roll.now calls.now (string_bytes s)) }
{
    let outcome = run(guard, roll, calls, answers);
    let lines = answer_lines(heap, &answers[..outcome.answered])?;
    let last = last_line(heap, outcome.end)?;
    format!(in heap; "{lines}{last}")
}

/// What is printed for a run of a roll and a call stream: a line for each call with its place from 0 and its answer, and a last line where a call is
/// bad or the roll is refused.
pub fn transcript<S: Scheme + Drop>(
    heap: Global,
    scheme: S,
    roll: &[u8],
    calls: &[u8],
) -> Result<String, AllocError>
    ensures { IfOk result (λ s. Printed (S.Scheme.meaning scheme) roll.now calls.now (string_bytes s)) }
{
    let mut guard = Guard::new(scheme);
    let mut answers = vec![in heap; 0u8; calls.len() / 2]?;
    tell(heap, &mut guard, roll, calls, answers.as_mut_slice())
}

// Kept: each of the two is one line that names a label in use and pins what it means; what they share is `transcript`, which is generic.
/// The same at the house label.
pub fn house_transcript(heap: Global, roll: &[u8], calls: &[u8]) -> Result<String, AllocError>
    ensures { IfOk result (λ s. Printed house roll.now calls.now (string_bytes s)) }
{
    transcript(heap, house_label(), roll, calls)
}

// Kept: as above.
/// The same at the old label.
pub fn old_transcript(heap: Global, roll: &[u8], calls: &[u8]) -> Result<String, AllocError>
    ensures { IfOk result (λ s. Printed old roll.now calls.now (string_bytes s)) }
{
    transcript(heap, old_label(), roll, calls)
}
