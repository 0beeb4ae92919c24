//! The slots of a table, by number. A slot past the end of the table holds nothing, and takes nothing.
ghost use Rattle.std.specs.Prelude.{◌≡◌, Some, None, slice_index_or, slice_set};
ghost use Rattle.std.specs.Option.{option_map};

/// What slot `i` holds, lent.
pub(crate) fn slot<T>(table: &[Option<T>], i: u8) -> Option<&T>
    ensures { option_map (λ x. x.now) result ≡ slice_index_or table.now i None }
{
    table.get(i as usize)?.as_ref()
}

/// Writes `v` into slot `i`.
pub(crate) fn put<T: Copy>(table: &mut [T], i: u8, v: T)
    ensures { table.new ≡ slice_set table.old i v }
{
    // Kept: `get_mut` was tried, and its proof didn't close: of the place that it lends one learns the table's length and none of its elements.
    if (i as usize) < table.len() {
        table[i as usize] = v;
    }
}
