//! How a run goes out.
ghost use Rattle.std.specs.Prelude.{◌≡◌};
ghost use Rattle.session.specs.Sessions.{stop_number, end_number};

use monitor::RollFault;
use stream::CallFault;

/// Why a run stops short: a call could not be read, the roll was refused, or the buffer has no room for an answer to each call that the stream may
/// hold.
#[derive(Clone, Copy)]
pub enum Stop {
    BadCall(CallFault),
    BadRoll(RollFault),
    NoRoom,
}

impl Stop {
    /// The number of this stop: that of the fault of a bad call or a refused roll, and 15 for no room.
    // Kept: a stop has other numbers in it (a place, a length); `u8::from(&stop)` would not say which it gives.
    pub fn number(&self) -> u8
        ensures { result ≡ stop_number self.now }
    {
        match self {
            Stop::BadCall(fault) => fault.number(),
            Stop::BadRoll(fault) => fault.number(),
            Stop::NoRoom => 15,
        }
    }
}

/// How many calls were answered, and why the run stopped, if not at the end of the stream.
// Kept: the answers stand in a buffer that the caller lends, and this is how many of them; the engine allocates nothing.
#[derive(Clone, Copy)]
pub struct Outcome {
    pub answered: usize,
    pub end: Result<(), Stop>,
}

impl Outcome {
    /// The number of the end: 0 where all calls were answered, else that of the stop.
    // Kept: an outcome has a count as well; `u8::from(&outcome)` would not say which it gives.
    pub fn number(&self) -> u8
        ensures { result ≡ end_number self.now.end }
    {
        self.end.err().map_or(0, |stop| stop.number())
    }
}
