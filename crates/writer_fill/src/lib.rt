// One image frame: it takes units until it is full or the page is finished.
#![tactic(auto)]

ghost use Rattle.std.specs.Prelude.{◌≡◌, ◌+◌, ◌<◌, ◌^◌, ◌≤◌};
ghost use Rattle.writer_fill.specs.Filling.{is_full_by, after_unit, unfilled, Fillable, Fills, start_after, first_start};
ghost use Rattle.bitmap.specs.Form.{columns_of};
ghost use Rattle.units.specs.Units.{stands};

use diagram::{Bits, Columns, Lengths};
use packing::append;
use state::{Solid, State};
use units::next::{due_in, unit};
use units::{Continuation, Encoded, StepDue, Unit};

// Where a frame starts: the columns encoded before it, the last of which says X, the state and the lengths that its header says.
#[derive(Clone, Copy)]
pub struct FrameStart {
    pub before: usize,
    pub state: State,
    pub lengths: Lengths,
}

// Where the frame in hand stands: its bits and columns, what is due, and the lengths.
#[derive(Clone, Copy)]
pub struct FrameProgress {
    pub bits: Bits,
    pub columns: Columns,
    pub due: StepDue,
    pub lengths: Lengths,
}

// A frame that takes no more: it is full, or the page is finished with it. Where the page is finished, what is due and the lengths are those
// before its last unit.
#[derive(Clone, Copy)]
pub enum FilledFrame {
    Full(FrameProgress),
    Finished(FrameProgress),
}

// A frame that has more bits is closed.
const MOST_BITS: usize = 500;

// Whether the frame is full.
fn is_full(p: FrameProgress, most: usize) -> bool
    ensures { result ≡ is_full_by most p }
{
    p.bits.0 > MOST_BITS || p.columns.0 > most
}

// The progress after a unit, with what is due then, and the lengths.
fn after(p: FrameProgress, u: Unit, then: Continuation) -> FrameProgress
    requires { (p.bits.0 + u.bits.0 < 2 ^ 60) × (p.columns.0 + u.columns.0 < 2 ^ 60) }
    ensures { result ≡ after_unit p u then }
{
    let due = then.due;
    let lengths = then.lengths;
    FrameProgress {
        bits: Bits(p.bits.0 + u.bits.0),
        columns: Columns(p.columns.0 + u.columns.0),
        due,
        lengths,
    }
}

// Before the first unit.
fn unfilled(head: FrameStart) -> FrameProgress
    ensures { result ≡ unfilled head }
{
    let state = head.state;
    let lengths = head.lengths;
    FrameProgress {
        bits: Bits(0),
        columns: Columns(0),
        due: due_in(state),
        lengths,
    }
}

// Fills a frame, whose data octets are 0 before, from a bitmap of so many columns.
pub fn fill(
    bitmap: &[u8],
    columns: usize,
    head: FrameStart,
    most: usize,
    data: &mut [u8],
) -> FilledFrame
    requires { Fillable bitmap.now columns head «data».old × (most ≤ 9600) }
    ensures { Fills most head (columns_of bitmap.now) result «data».new }
{
    let mut p = unfilled(head);
    // A while: the bits and columns of the units say when the frame is full.
    while !is_full(p, most) {
        let due = p.due;
        let lengths = p.lengths;
        let encoded = Encoded {
            columns: Columns(head.before + p.columns.0),
            lengths,
        };
        let u = unit(bitmap, columns, due, encoded);
        append(data, p.bits.0, u.value);
        let Some(then) = u.continuation else {
            return FilledFrame::Finished(after(p, u, Continuation { due, lengths }));
        };
        p = after(p, u, then);
    }
    FilledFrame::Full(p)
}

// The state that the writing stands in.
fn state_of(due: StepDue) -> State
    ensures { result ≡ stands due }
{
    match due {
        StepDue::Move(m) => State::Mixed(m),
        StepDue::Word(_, s) => State::Solid(s),
    }
}

// Where the frame after a full one starts.
pub fn next_start(head: FrameStart, p: FrameProgress) -> FrameStart
    requires { head.before + p.columns.0 < 2 ^ 60 }
    ensures { result ≡ start_after head p }
{
    let due = p.due;
    let lengths = p.lengths;
    FrameStart {
        before: head.before + p.columns.0,
        state: state_of(due),
        lengths,
    }
}

// Where the first frame starts: WW, 7, 7.
pub fn first_start() -> FrameStart
    ensures { result ≡ first_start }
{
    FrameStart {
        before: 0,
        state: State::Solid(Solid::WW),
        lengths: Lengths { black: 7, white: 7 },
    }
}
