//! The lines of a run.
ghost use Rattle.std.specs.Prelude.{◌≡◌, IfOk, string_bytes};
ghost use Rattle.transcript.specs.Printed.{lines_from, line_of_fault, final_line};

use session::Stop;
use std::alloc::{AllocError, Global};

/// A line for each answer, with its place from 0.
pub(crate) fn answer_lines(heap: Global, answers: &[u8]) -> Result<String, AllocError>
    ensures { IfOk result (λ s. string_bytes s ≡ lines_from 0 answers.now) }
{
    let mut out = String::new(heap);
    for (place, answer) in answers.iter().enumerate() {
        write!(out, "{place} {answer}\n")?;
    }
    Ok(out)
}

/// The line of a bad call or a refused roll: its fault and its place. There is none where all calls were answered.
pub(crate) fn last_line(heap: Global, end: Result<(), Stop>) -> Result<String, AllocError>
    ensures { IfOk result (λ s. string_bytes s ≡ final_line end) }
{
    match end {
        Err(Stop::BadCall(fault)) => fault_line(heap, "bad", fault.number(), fault.place()),
        Err(Stop::BadRoll(fault)) => fault_line(heap, "roll", fault.number(), fault.place()),
        Ok(()) | Err(Stop::NoRoom) => Ok(String::new(heap)),
    }
}

/// The line of a fault: a word for what has it, its number and its place.
fn fault_line(heap: Global, word: &str, number: u8, place: usize) -> Result<String, AllocError>
    ensures { IfOk result (λ s. string_bytes s ≡ line_of_fault word.now number place) }
{
    format!(in heap; "{word} {number} {place}\n")
}
