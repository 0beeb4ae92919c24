//! Runs cases, and tells how each went.
ghost use Rattle.std.specs.Prelude.{◌≡◌, ◌/◌, length, IfOk, string_bytes};
ghost use Rattle.hex.specs.Hex.{encode_lower};
ghost use Rattle.tables.specs.State.{blank};
ghost use Rattle.saving.specs.Saves.{saved};
ghost use Rattle.replay.specs.Cases.{text_of_fault, Told, Replayed, label_of, answers_text, end_text};

use crate::cases::{Case, next_case};
use byte_cursor::Cursor;
use labels::{Scheme, house_label, old_label};
use monitor::{Guard, RollFault};
use saving::saved_len;
use session::{Stop, run};
use std::alloc::{AllocError, Global};

/// The answers, each with a space behind it.
fn answers_text(heap: Global, answers: &[u8]) -> Result<String, AllocError>
    ensures { IfOk result (λ s. string_bytes s ≡ answers_text answers.now) }
{
    let mut out = String::new(heap);
    for answer in answers {
        write!(out, "{answer} ")?;
    }
    Ok(out)
}

/// How a run ends: `end`, or what was wrong with a call or with the roll, and where; of an unsound roll also the clause, counted from 1.
fn end_text(heap: Global, end: Result<(), Stop>) -> Result<String, AllocError>
    ensures { IfOk result (λ s. string_bytes s ≡ end_text end) }
{
    match end {
        Ok(()) => format!(in heap; "end"),
        Err(Stop::NoRoom) => format!(in heap; "no room"),
        Err(Stop::BadCall(fault)) => fault_text(heap, "bad", fault.number(), fault.place()),
        Err(Stop::BadRoll(RollFault::Unsound(clause, place))) => {
            let clause = clause as u8 + 1;
            format!(in heap; "roll 14 {place} {clause}")
        }
        Err(Stop::BadRoll(fault)) => fault_text(heap, "roll", fault.number(), fault.place()),
    }
}

/// A fault: a word for what has it, its number and its place.
fn fault_text(heap: Global, word: &str, number: u8, place: usize) -> Result<String, AllocError>
    ensures { IfOk result (λ s. string_bytes s ≡ text_of_fault word.now number place) }
{
    format!(in heap; "{word} {number} {place}")
}

/// The bytes that a guard saves, in hexadecimal. They are never more than 2704.
fn saved_text<S: Scheme>(heap: Global, guard: &Guard<S>) -> Result<String, AllocError>
    ensures { IfOk result (λ s. string_bytes s ≡ encode_lower (saved guard.now.tables)) }
{
    let mut room = [0; 2704];
    let bytes = &mut room[..saved_len(guard.tables())];
    match guard.save(bytes) {
        Ok(n) => hex::encode(heap, &bytes[..n]),
        Err(_) => Ok(String::new(heap)),
    }
}

/// Runs a case on a guard with a buffer for the answers: the answers, the end, and the bytes that the guard then saves.
fn tell<S: Scheme>(
    heap: Global,
    guard: &mut Guard<S>,
    case: Case,
    answers: &mut [u8],
) -> Result<String, AllocError>
    requires { length answers.old ≡ length case.calls.now / 2 }
    ensures { guard.old.tables ≡ blank → IfOk result (λ s. Told (S.Scheme.meaning guard.old.scheme) case.entry.roll.now case.entry.calls.now (string_bytes s)) }
{
    let outcome = run(guard, case.roll, case.calls, answers);
    let said = answers_text(heap, &answers[..outcome.answered])?;
    let end = end_text(heap, outcome.end)?;
    let saved = saved_text(heap, guard)?;
    format!(in heap; "{said}{end} {saved}\n")
}

/// The line of a case.
fn replay<S: Scheme + Drop>(heap: Global, scheme: S, case: Case) -> Result<String, AllocError>
    ensures { IfOk result (λ s. Told (S.Scheme.meaning scheme) case.entry.roll.now case.entry.calls.now (string_bytes s)) }
{
    let mut guard = Guard::new(scheme);
    let mut answers = vec![in heap; 0u8; case.calls.len() / 2]?;
    tell(heap, &mut guard, case, answers.as_mut_slice())
}

/// The line of a case under its label.
fn replay_case(heap: Global, case: Case) -> Result<String, AllocError>
    ensures { IfOk result (λ s. Told (label_of case.entry.label) case.entry.roll.now case.entry.calls.now (string_bytes s)) }
{
    if case.label == 0 {
        replay(heap, house_label(), case)
    } else {
        replay(heap, old_label(), case)
    }
}

/// A line for each case; a last line where the bytes end inside a case.
pub(crate) fn replay_all(heap: Global, cases: &[u8]) -> Result<String, AllocError>
    ensures { IfOk result (λ s. Replayed cases.now (string_bytes s)) }
{
    let mut out = String::new(heap);
    let mut c = Cursor::new(cases);
    // Kept: cases are read from a cursor until none is left; an iterator of them would have to end behind one that cannot be read.
    while !c.at_end() {
        let Ok(case) = next_case(&mut c) else {
            out.push_str("the cases are cut short\n")?;
            return Ok(out);
        };
        let line = replay_case(heap, case)?;
        out.push_str(line.as_str())?;
    }
    Ok(out)
}
