// The units that encode a page: which comes next, of the columns of a bitmap.
#![tactic(auto)]

use diagram::{Bits, Columns, Lengths};
use field_length::Nth;
use state::{Mixed, Solid};

pub mod find;
pub mod next;

// What is due: a move out of a mixed state, or a word of a run, its first in this frame or a later one.
#[derive(Clone, Copy)]
pub enum StepDue {
    Move(Mixed),
    Word(Nth, Solid),
}

// What is encoded of a page: so many columns, the last of which says X, and the lengths behind them.
#[derive(Clone, Copy)]
pub struct Encoded {
    pub columns: Columns,
    pub lengths: Lengths,
}

// How a page goes on: what is due, and the lengths then.
#[derive(Clone, Copy)]
pub struct Continuation {
    pub due: StepDue,
    pub lengths: Lengths,
}

// A unit as it is put: its bits, and the number that they say, low bit first; the columns that it lays; and how the page goes on after it, or
// nothing where the page is finished with it.
#[derive(Clone, Copy)]
pub struct Unit {
    pub bits: Bits,
    pub value: usize,
    pub columns: Columns,
    pub continuation: Option<Continuation>,
}
