//! The words for faults, clauses, kinds and rights.
ghost use Rattle.std.specs.Prelude.{◌≡◌};
ghost use Rattle.listing.specs.Words.{word_of_record, word_of_fault, letter_of_clause, text_of_clause, word_of_kind, word_of_right};

use monitor::RollFault;
use records::RecordFault;
use sound::clauses::Clause;
use tables::sets::Right;
use tables::types::Kind;

// Kept: the type is another crate's, so it cannot be given a Display here, and a wrapper round it is longer than the function. A Display
// in the type's own crate would give it this report's words, and the guard's programs print a fault otherwise, by its number.
/// What is wrong with a record, in a word or two.
fn record_word(fault: &RecordFault) -> &'static str
    ensures { result.now ≡ word_of_record fault.now }
{
    match fault {
        RecordFault::Bytes(_) => "cut short",
        RecordFault::Form(_) => "bad form",
        RecordFault::Order(_) => "out of order",
    }
}

// Kept: as above.
/// What is wrong with a roll, in a word or two.
pub(crate) fn fault_word(fault: &RollFault) -> &'static str
    ensures { result.now ≡ word_of_fault fault.now }
{
    match fault {
        RollFault::Record(f) => record_word(f),
        RollFault::Unsound(_, _) => "unsound",
    }
}

// Kept: the type is another crate's, so it cannot be given a Display here, and these are this report's words; a wrapper round it is longer than the
// function.
/// The letter of a clause.
pub(crate) fn clause_letter(clause: Clause) -> &'static str
    ensures { result.now ≡ letter_of_clause clause }
{
    match clause {
        Clause::Groups => "a",
        Clause::Labels => "b",
        Clause::Tree => "c",
        Clause::Owners => "d",
        Clause::Lists => "e",
        Clause::Administrator => "f",
        Clause::Nesting => "g",
        Clause::Mixed => "h",
    }
}

// Kept: as above.
/// What is wrong where a clause fails.
pub(crate) fn clause_text(clause: Clause) -> &'static str
    ensures { result.now ≡ text_of_clause clause }
{
    match clause {
        Clause::Groups => "a group that a user or an object names does not exist",
        Clause::Labels => "something is no label, or a floor does not flow to its top",
        Clause::Tree =>
            "object 0 is not a container of its own, or a parent is no container, or parents do not lead to 0",
        Clause::Owners => "an owner, or a user with rights, does not exist",
        Clause::Lists => "an allow list names something that is no program",
        Clause::Administrator => "there is no administrator",
        Clause::Nesting => "an unmixed container does not hold everything under it",
        Clause::Mixed => "something mixed is no container",
    }
}

// Kept: as above.
/// What an object is.
pub(crate) fn kind_word(kind: Kind) -> &'static str
    ensures { result.now ≡ word_of_kind kind }
{
    match kind {
        Kind::Container => "container",
        Kind::File => "file",
        Kind::Program => "program",
    }
}

// Kept: as above.
/// What a right lets a user do.
pub(crate) fn right_word(right: Right) -> &'static str
    ensures { result.now ≡ word_of_right right }
{
    match right {
        Right::Read => "read",
        Right::Write => "write",
        Right::Create => "create",
        Right::Delete => "delete",
        Right::ChangeRights => "change rights",
        Right::Execute => "execute",
        Right::WriteAttributes => "write attributes",
    }
}
