//! How a run or a resave went, in numbers.
ghost use Rattle.std.specs.Prelude.{◌≡◌};
ghost use Rattle.session.specs.Sessions.{end_number};
ghost use Rattle.guard_c.specs.Crossings.{stop_place, stop_clause, end_place, end_clause, report_of};

use monitor::RollFault;
use session::Stop;

/// How a run or a resave went: how many bytes were written into the buffer, the number of the end (0 where nothing stopped it), and where a fault
/// has them, its byte place and the first clause of soundness that fails, counted from 1.
#[repr(C)]
#[derive(Clone, Copy)]
pub struct Report {
    pub written: usize,
    pub place: usize,
    pub number: u8,
    pub clause: u8,
}

/// The byte place that a stop carries: 0 for no room, which has none.
fn place_of_stop(stop: &Stop) -> usize
    ensures { result ≡ stop_place stop.now }
{
    match stop {
        Stop::BadCall(fault) => fault.place(),
        Stop::BadRoll(fault) => fault.place(),
        Stop::NoRoom => 0,
    }
}

/// The number of the clause that a stop carries: 0 where it has none.
fn clause_of_stop(stop: &Stop) -> u8
    ensures { result ≡ stop_clause stop.now }
{
    match stop {
        Stop::BadRoll(RollFault::Unsound(clause, _)) => *clause as u8 + 1,
        _ => 0,
    }
}

/// The report of an end, behind so many bytes that were written.
pub(crate) fn report_end(written: usize, end: Result<(), Stop>) -> Report
    ensures { result ≡ report_of written end }
{
    match end {
        Ok(()) => Report {
            written,
            place: 0,
            number: 0,
            clause: 0,
        },
        Err(stop) => Report {
            written,
            place: place_of_stop(&stop),
            number: stop.number(),
            clause: clause_of_stop(&stop),
        },
    }
}
