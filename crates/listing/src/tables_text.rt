//! The tables: a heading for each, and a line for each entry.
ghost use Rattle.std.specs.Prelude.{◌≡◌, ◌-◌, ◌++◌, slice_index_or, IfOk, string_bytes};
ghost use Rattle.std.specs.Option.{option_map};
ghost use Rattle.tables.specs.State.{object_at};
ghost use Rattle.listing.specs.Listed.{each, told, child_under, text_of_tree, text_of_objects};

use crate::lines::{Entry, object_line};
use std::alloc::{AllocError, Global};
use tables::types::{OBJECTS, Object, Tables};

/// A table of users or groups.
pub(crate) fn table_text<T: Entry, const N: usize>(
    heap: Global,
    title: &str,
    slots: &[Option<T>; N],
) -> Result<String, AllocError>
    ensures { IfOk result (λ s. string_bytes s ≡ title.now ++ each (λ n. told (T.Entry.line_of n) (slice_index_or slots.now n None)) N) }
{
    let mut out = String::from_str(heap, title)?;
    for (number, slot) in slots.iter().enumerate() {
        if let Some(entry) = slot {
            out.push_str(entry.line(heap, number)?.as_str())?;
        }
    }
    Ok(out)
}

/// Object `o`, if its parent is `parent`.
fn child_of(t: &Tables, parent: u8, o: u8) -> Option<&Object>
    ensures { option_map (λ x. x.now) result ≡ child_under parent (object_at t.now o) }
{
    t.object(o).filter(|object| object.parent == parent)
}

/// An object and, under it, those whose parent it is, in ascending order. No object of a tree is deeper than they are many.
fn tree_text(
    heap: Global,
    t: &Tables,
    depth: u8,
    number: u8,
    object: &Object,
) -> Result<String, AllocError>
    ensures { IfOk result (λ s. string_bytes s ≡ text_of_tree t.now (64 - depth) depth number object.now) }
{
    let mut out = object_line(heap, depth, number, object)?;
    if depth < OBJECTS as u8 {
        // Kept: the number is what is printed and asked on; from 1, since the root is under nothing.
        for o in 1..OBJECTS as u8 {
            if let Some(child) = child_of(t, number, o) {
                out.push_str(tree_text(heap, t, depth + 1, o, child)?.as_str())?;
            }
        }
    }
    Ok(out)
}

/// The objects, as a tree.
pub(crate) fn objects_text(heap: Global, t: &Tables) -> Result<String, AllocError>
    ensures { IfOk result (λ s. string_bytes s ≡ text_of_objects t.now) }
{
    let mut out = String::from_str(heap, "objects:\n")?;
    if let Some(root) = t.object(0) {
        out.push_str(tree_text(heap, t, 0, 0, root)?.as_str())?;
    }
    Ok(out)
}
