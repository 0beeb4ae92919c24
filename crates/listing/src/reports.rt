//! The whole report on a roll.
ghost use Rattle.std.specs.Prelude.{◌≡◌, IfOk, string_bytes, Decides};
ghost use Rattle.saving.specs.Saves.{saved};
ghost use Rattle.listing.specs.Reports.{listed, Reported};

use crate::refusals::Refusal;
use crate::tables_text::{objects_text, table_text};
use labels::{House, house_label};
use monitor::Guard;
use std::alloc::{AllocError, Global};
use tables::types::Tables;

/// Is a guard saved as these bytes?
fn saves_as(heap: Global, guard: &Guard<House>, bytes: &[u8]) -> Result<bool, AllocError>
    ensures { IfOk result (λ b. Decides b (saved guard.now.tables ≡ bytes.now)) }
{
    let mut buf = vec![in heap; 0u8; bytes.len()]?;
    // Kept: `is_ok_and` was tried, with both tests in the closure and with one, and its proof didn't close.
    Ok(match guard.save(buf.as_mut_slice()) {
        Ok(n) => n == bytes.len() && buf.as_slice() == bytes,
        Err(_) => false,
    })
}

/// The tables of a roll, how many bytes it has, and whether its tables are saved as the same.
fn list(heap: Global, t: &Tables, count: usize, same: bool) -> Result<String, AllocError>
    ensures { IfOk result (λ s. string_bytes s ≡ listed t.now count same) }
{
    let users = table_text(heap, "users:\n", &t.users)?;
    let groups = table_text(heap, "groups:\n", &t.groups)?;
    let objects = objects_text(heap, t)?;
    let which = if same { "the same" } else { "OTHER" };
    format!(in heap; "{users}{groups}{objects}{count} bytes, saved as {which} bytes\n")
}

/// What is printed for a roll: what it says, or one line that refuses it.
pub fn report(heap: Global, bytes: &[u8]) -> Result<String, AllocError>
    ensures { IfOk result (λ s. Reported bytes.now (string_bytes s)) }
{
    let mut guard = Guard::new(house_label());
    match guard.load(bytes) {
        Ok(()) => {
            let same = saves_as(heap, &guard, bytes)?;
            list(heap, guard.tables(), bytes.len(), same)
        }
        Err(fault) => {
            let refusal = Refusal { fault };
            format!(in heap; "{refusal}\n")
        }
    }
}
