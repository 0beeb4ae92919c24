//! A stored case.
ghost use Rattle.std.specs.Prelude.{MatchResult};
ghost use Rattle.byte_cursor.specs.Bytes.{left, Took};
ghost use Rattle.replay.specs.Cases.{written, NoCase};

use byte_cursor::{Cursor, CursorFault};

/// A roll and a call stream, and the label under which they are run: 0 for the house label, else the old one.
#[derive(Clone, Copy)]
pub(crate) struct Case<'a> {
    pub(crate) label: u8,
    pub(crate) roll: &'a [u8],
    pub(crate) calls: &'a [u8],
}

/// The next case: its label, how long the roll and the stream are, and the two.
pub(crate) fn next_case<'a>(c: &mut Cursor<'a>) -> Result<Case<'a>, CursorFault>
    ensures { MatchResult result (λ x. Took c.old c.new (written x.label x.roll.now x.calls.now)) (λ e. NoCase (left c.old)) }
{
    let label = c.number::<u8, 1>()?;
    let roll = c.number::<u16, 2>()?;
    let calls = c.number::<u16, 2>()?;
    Ok(Case {
        label,
        roll: c.part(usize::from(roll))?,
        calls: c.part(usize::from(calls))?,
    })
}
