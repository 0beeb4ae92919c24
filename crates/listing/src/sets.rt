//! Sets in words.
ghost use Rattle.std.specs.Prelude.{◌≡◌, IfOk, string_bytes, OnOk};
ghost use Rattle.listing.specs.Listed.{members_text, naming, text_of_rights};

use crate::words::right_word;
use std::alloc::{AllocError, Global};
use tables::sets::{ObjectSet, Right, Rights};
use tables::types::OBJECTS;

/// The rights in the order in which they are named.
const RIGHTS: [Right; 7] = [
    Right::Read,
    Right::Write,
    Right::Create,
    Right::Delete,
    Right::ChangeRights,
    Right::Execute,
    Right::WriteAttributes,
];

/// The numbers in a set, behind a title: nothing where the set is empty.
// Kept: a set is asked number by number, and has no list of its members; the number is what is printed.
pub(crate) fn members(heap: Global, title: &str, set: ObjectSet) -> Result<String, AllocError>
    ensures { IfOk result (λ s. string_bytes s ≡ members_text title.now set.0) }
{
    let mut out = String::new(heap);
    if set.0 == 0 {
        return Ok(out);
    }
    out.push_str(title)?;
    for k in 0..OBJECTS as u8 {
        if set.contains(k) {
            write!(out, " {k}")?;
        }
    }
    Ok(out)
}

/// Names a right behind the text, if it is in the set.
fn name(out: &mut String, set: Rights, right: Right) -> Result<(), AllocError>
    ensures { OnOk result (string_bytes out.new ≡ naming set.0 (string_bytes out.old) right) }
{
    if set.contains(right) {
        if !out.is_empty() {
            out.push_str(", ")?;
        }
        out.push_str(right_word(right))?;
    }
    Ok(())
}

/// The rights of a set in words.
pub(crate) fn rights_text(heap: Global, set: Rights) -> Result<String, AllocError>
    ensures { IfOk result (λ s. string_bytes s ≡ text_of_rights set.0) }
{
    let mut out = String::new(heap);
    for right in RIGHTS {
        name(&mut out, set, right)?;
    }
    if out.is_empty() {
        out.push_str("no rights")?;
    }
    Ok(out)
}
