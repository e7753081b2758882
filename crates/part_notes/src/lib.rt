// The steps of a data part, noted: an entry for each, and how far they have come.
#![tactic(auto)]

ghost use Rattle.std.specs.Prelude.{length, ◌≡◌, ◌+◌, ◌*◌, ◌<◌, set};
ghost use Rattle.state.specs.Pels.{pels_of};
ghost use Rattle.part_notes.specs.Notes.{onward, StepFits, stopped_at};

use diagram::{Bits, Columns, Context, End, Lengths};
use position::x_after;
use state::{State, pels};

// What a data part says: the bits taken, the columns laid (an open one is not among them), where it ends and the lengths there.
#[derive(Clone, Copy)]
pub struct PartReading {
    pub bits: Bits,
    pub columns: Columns,
    pub end: End,
    pub lengths: Lengths,
}

// What is behind: bits taken, columns laid, entries noted, and the present context.
#[derive(Clone, Copy)]
pub struct PartProgress {
    pub bits: Bits,
    pub columns: Columns,
    pub entries: usize,
    pub context: Context,
}

// A reading, and the number of its entries.
#[derive(Clone, Copy)]
pub struct StepsRead {
    pub entries: usize,
    pub reading: PartReading,
}

// An entry: four times the columns, and the state's pels.
pub fn entry(state: State, columns: usize) -> u16
    requires { columns < 128 }
    ensures { result ≡ 4 * columns + pels_of state }
{
    4 * columns as u16 + pels(state) as u16
}

// Notes a step of so many bits and columns, in this state, with these lengths behind it: its entry, and the progress then.
pub fn note(
    entries: &mut [u16],
    p: PartProgress,
    state: State,
    taken: Bits,
    laid: Columns,
    lengths: Lengths,
) -> PartProgress
    requires { StepFits (length entries.old) taken laid p }
    ensures { (result ≡ onward p taken laid lengths) × (entries.new ≡ set entries.old p.entries (4 * laid.0 + pels_of state)) }
{
    entries[p.entries] = entry(state, laid.0);
    PartProgress {
        bits: Bits(p.bits.0 + taken.0),
        columns: Columns(p.columns.0 + laid.0),
        entries: p.entries + 1,
        context: Context {
            lengths,
            x: x_after(p.context.x, laid.0),
        },
    }
}

// The reading that ends here, after `count` bits.
pub fn stopped(p: PartProgress, count: usize, end: End) -> StepsRead
    ensures { result ≡ stopped_at p count end }
{
    StepsRead {
        entries: p.entries,
        reading: PartReading {
            bits: Bits(count),
            columns: p.columns,
            end,
            lengths: p.context.lengths,
        },
    }
}
