//! The records of a roll, read from bytes.
#![tactic(auto)]

mod forms;
mod reads;
mod rights;

pub use forms::{GroupRecord, ObjectRecord, Record, RecordFault, UserRecord};
pub use reads::{group_map, object_map, read_record, user_map};
pub use rights::{marks_of, read_rights, rights_part};
