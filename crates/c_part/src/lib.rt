// The call on one data part, as C makes it: every number that is handed in is a u64 and is judged, and the answer is five numbers.
#![tactic(auto)]

ghost use Rattle.std.specs.Prelude.{◌≡◌};
ghost use Rattle.part.specs.Call.{part_validity};
ghost use Rattle.c_part.specs.Part.{end_number, numbers_of, unstated, exported_part};

use c_refusal::refusal_code;
use diagram::{Context, End, Lengths, Start};
use part_notes::PartReading;
use refusal::Reason;
use state::{State, pels, with_pels};

// An end as a number: the pels of its state, or 4 for open.
fn end_number(end: End) -> u64
    ensures { result ≡ end_number end }
{
    match end {
        End::At(state) => pels(state) as u64,
        End::Closed(s) => pels(State::Solid(s)) as u64,
        End::Open => 4,
    }
}

// What a data part says, as five numbers.
fn numbers(reading: PartReading) -> [u64; 5]
    ensures { result ≡ numbers_of reading }
{
    [
        reading.bits.0 as u64,
        reading.columns.0 as u64,
        end_number(reading.end),
        reading.lengths.black as u64,
        reading.lengths.white as u64,
    ]
}

// The number of the refusal where the number handed in is no state: the count and the lengths are judged before it.
fn no_state(octets: &[u8], count: usize, start: Start) -> u64
    ensures { result ≡ unstated (part_validity octets.now count start) }
{
    match part::judge(octets, count, start) {
        Err(reason) => reason.into(),
        Ok(()) => Reason::HeaderDisagrees.into(),
    }
}

// Reads one data part (`part::read_part`). The answer is bits taken, columns laid, the end (a state by its two pels, or 4 for open), the
// black and the white length.
pub fn read_part(
    octets: &[u8],
    count: u64,
    state: u64,
    black: u64,
    white: u64,
    x: u64,
    out: &mut [u8],
    answer: &mut [u64; 5],
) -> u64
    ensures { (result, out.new, answer.new) ≡ exported_part octets.now count state (record { lengths = record { black = black; white = white }; x = x }) out.old answer.old }
{
    let lengths = Lengths {
        black: black as usize,
        white: white as usize,
    };
    let context = Context {
        lengths,
        x: x as usize,
    };
    let start = Start {
        state: with_pels(state as usize),
        context,
    };
    if state > 3 {
        return no_state(octets, count as usize, start);
    }
    match part::read_part(octets, count as usize, start, out) {
        Ok(reading) => {
            *answer = numbers(reading);
            0
        }
        Err(refusal) => refusal_code(refusal),
    }
}
