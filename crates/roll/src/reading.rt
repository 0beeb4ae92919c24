//! Reads a roll into tables.
ghost use Rattle.std.specs.Prelude.{◌≡◌};
ghost use Rattle.std.specs.Ordering.{partial_le};
ghost use Rattle.std.specs.Option.{option_partial_cmp};
ghost use Rattle.roll.specs.contracts.places.PlacePartialOrd.TheImpl as order;
ghost use Rattle.records.specs.Records.{InForm};
ghost use Rattle.roll.specs.Rolls.{put_in, Says};

use crate::places::Place;
use crate::slots::{table_object, table_role, table_user};
use byte_cursor::Cursor;
use records::{Record, RecordFault, read_record};
use tables::types::Tables;

/// Puts what a record says into its slot.
fn put(t: &mut Tables, r: &Record)
    requires { InForm r.now }
    ensures { t.new ≡ put_in t.old r.now }
{
    match r {
        Record::User(u) => t.users[u.number as usize] = Some(table_user(u)),
        Record::Group(g) => t.groups[g.number as usize] = Some(table_role(g)),
        Record::Object(o) => t.objects[o.number as usize] = Some(table_object(o)),
    }
}

/// Does a record at `next` come no later than the one at `last`, if there is one?
fn is_not_behind(next: Option<Place>, last: Option<Place>) -> bool
    ensures { result ≡ partial_le (option_partial_cmp (order.ghosts).partial_cmp) next last }
{
    next <= last
}

/// The tables that a roll says, or what is wrong with its first bad record.
pub fn read_tables(bytes: &[u8]) -> Result<Tables, RecordFault>
    ensures { Says bytes.now result }
{
    let mut c = Cursor::new(bytes);
    let mut tables = Tables::blank();
    let mut last = None;
    // Kept: the cursor is asked for its place before each record; an iterator would have to give the place with it, and the loop ends by `?`.
    while !c.at_end() {
        let first = c.place();
        let record = read_record(&mut c)?;
        let next = Some(Place::from(&record));
        if is_not_behind(next, last) {
            return Err(RecordFault::Order(first));
        }
        last = next;
        put(&mut tables, &record);
    }
    Ok(tables)
}
