//! Reads a call: its map, its number, and the arguments in the map.
ghost use Rattle.std.specs.Prelude.{◌≡◌, ℕ, ◌<◌, List, [], ◌++◌, length, Some, Ok, MatchOption, MatchResult};
ghost use Rattle.byte_cursor.specs.Bytes.{left, Took};
ghost use Rattle.stream.specs.Forms.{encode, InForm, map_number, size_of, Known};
ghost use Rattle.stream.specs.Faults.{Faulty};
ghost use Rattle.stream.specs.Streams.{OneReading};
ghost use Rattle.stream.specs.Inside.{five, listed, kept, spread_map, byte_call_of, call_of, Reads};

use crate::faults::CallFault;
use byte_cursor::{Cursor, CursorFault};
use calls::types::Call;

/// The arguments that a call can have: up to four bytes, and a label behind them. What is absent is 0.
#[derive(Clone, Copy)]
struct Arguments {
    first: u8,
    second: u8,
    third: u8,
    fourth: u8,
    label: u64,
}

// Kept: one of three matches over the number that the format has for a call: they give its arguments, the call where none is a label, and
// any call. An enum of the numbers would be one more list of the fourteen calls, beside `Call`, and leave the three matches.
/// The map with the label's bit at bit 4, behind those of four bytes: `None` where no call has the number, or a bit stands for no argument.
#[inline(always)]
fn full_map(number: u8, bits: u8) -> Option<u8>
    ensures { MatchOption result (Known number bits → ⊥) (λ m. Known number bits × (m ≡ spread_map (kept number) bits)) }
{
    match number {
        1 | 9 if bits < 8 => Some(bits % 4 + bits / 4 * 16),
        2 if bits < 16 => Some(bits % 8 + bits / 8 * 16),
        3 if bits < 2 => Some(bits),
        4 | 5 | 7 | 10 | 11 if bits < 4 => Some(bits),
        6 if bits < 32 => Some(bits),
        8 | 13 | 14 if bits < 8 => Some(bits),
        12 if bits < 16 => Some(bits),
        _ => None,
    }
}

/// The bit of each argument in a full map.
impl Arguments {
    const FIRST: u8 = 1;

    const SECOND: u8 = 2;

    const THIRD: u8 = 4;

    const FOURTH: u8 = 8;

    const LABEL: u8 = 16;
}

impl Arguments {
    /// The arguments in a full map.
    #[inline(always)]
    fn read(c: &mut Cursor, map: u8) -> Result<Arguments, CursorFault>
        ensures { MatchResult result (λ p. Reads map five (listed p) c.old c.new) (λ e. (e.first ≡ c.old.first) × (length (left c.old) < size_of map five)) }
    {
        let first = c.field(map & Arguments::FIRST != 0)?;
        let second = c.field(map & Arguments::SECOND != 0)?;
        let third = c.field(map & Arguments::THIRD != 0)?;
        let fourth = c.field(map & Arguments::FOURTH != 0)?;
        let label = c.field(map & Arguments::LABEL != 0)?;
        Ok(Arguments {
            first,
            second,
            third,
            fourth,
            label,
        })
    }

    /// The full map of the arguments that are not zero.
    // Kept: a sum of named bits, and no `map_of<const N: usize>([bool; N])` for this and the three maps of records: `read` asks for the
    // same bits by name, and an array would tell them by their place in it alone.
    #[inline(always)]
    fn map(&self) -> u8
        ensures { result ≡ map_number (listed self.now) }
    {
        Arguments::FIRST * u8::from(self.first != 0)
            + Arguments::SECOND * u8::from(self.second != 0)
            + Arguments::THIRD * u8::from(self.third != 0)
            + Arguments::FOURTH * u8::from(self.fourth != 0)
            + Arguments::LABEL * u8::from(self.label != 0)
    }

    // Kept: as at `full_map`.
    /// The call with a known number and these arguments, none of which is a label.
    #[inline(always)]
    fn byte_call(&self, number: u8) -> Call
        ensures { result ≡ byte_call_of number (listed self.now) }
    {
        let (subject, object) = (self.first, self.second);
        match number {
            3 => Call::Leave { subject },
            4 => Call::Read { subject, object },
            5 => Call::Write { subject, object },
            7 => Call::Delete { subject, object },
            8 => Call::Move {
                subject,
                object,
                parent: self.third,
            },
            10 => Call::Mix { subject, object },
            11 => Call::Unmix { subject, object },
            12 => Call::Rights {
                subject,
                object,
                user: self.third,
                mask: self.fourth,
            },
            13 => Call::Allow {
                subject,
                user: self.second,
                program: self.third,
            },
            _ => Call::Bar {
                subject,
                user: self.second,
                program: self.third,
            },
        }
    }

    // Kept: as at `full_map`.
    /// The call with a known number and these arguments.
    #[inline(always)]
    fn call(&self, number: u8) -> Call
        ensures { result ≡ call_of number (listed self.now) }
    {
        let label = self.label;
        match number {
            1 => Call::Enter {
                user: self.first,
                number: self.second,
                label,
            },
            2 => Call::Launch {
                subject: self.first,
                program: self.second,
                number: self.third,
                label,
            },
            6 => Call::Create {
                subject: self.first,
                parent: self.second,
                number: self.third,
                kind: self.fourth,
                label,
            },
            9 => Call::Raise {
                subject: self.first,
                object: self.second,
                label,
            },
            _ => self.byte_call(number),
        }
    }
}

/// The next call.
#[inline(always)]
fn read_call(c: &mut Cursor) -> Result<Call, CallFault>
    ensures { MatchResult result (λ x. InForm x × Took c.old c.new (encode x)) (Faulty c.old.place (left c.old)) }
{
    c.begin();
    let [bits, number] = *c.array::<2>()?;
    let map = full_map(number, bits).ok_or(CallFault::Form(c.first()))?;
    let a = Arguments::read(c, map)?;
    if a.map() != map {
        return Err(CallFault::Form(c.first()));
    }
    Ok(a.call(number))
}

// Kept: a function over a lent cursor and no iterator: an iterator would have to say what it gives behind a call that cannot be read, and
// the one caller stops there.
/// The next call, or `None` at the end of the bytes. A call that was written is read back.
#[inline(always)]
pub fn next_call(c: &mut Cursor) -> Option<Result<Call, CallFault>>
    ensures next { MatchOption result ((left c.old ≡ []) × (c.new ≡ c.old)) (λ q. (0 < length (left c.old)) × MatchResult q (λ x. InForm x × Took c.old c.new (encode x)) (Faulty c.old.place (left c.old))) }
    ensures back { (x : Call) (rest : List ℕ) → InForm x → left c.old ≡ encode x ++ rest → result ≡ Some (Ok x) }
    ensures one { OneReading }
{
    if c.at_end() { None } else { Some(read_call(c)) }
}
