// The unit that comes next.
ghost use Rattle.std.specs.Prelude.{◌≡◌, ◌+◌, ◌<◌, ◌≤◌, ◌^◌};
ghost use Rattle.octets.specs.Bits.{field_bits};
ghost use Rattle.state.specs.declared.State.TheVariants.{Solid as solid, Mixed as mixed};
ghost use Rattle.diagram.specs.Diagram.{ValidLengths, arc_bits};
ghost use Rattle.bitmap.specs.Form.{columns_of};
ghost use Rattle.units.specs.declared.StepDue.TheVariants.{Move as moving, Word as wording};
ghost use Rattle.units.specs.Units.{entered};
ghost use Rattle.units.specs.Found.{Page, last_unit, unit_before, IsNextUnit};

use crate::find::{column, run_ahead};
use crate::{Continuation, Encoded, StepDue, Unit};
use diagram::{Bits, Columns, Lengths, length, ones, with_length};
use field_length::{Nth, after_closing, after_ones};
use position::{last_x, position_after};
use state::{Mixed, Solid, State, with_pels};

// Bits to be put, and the number that they say, low bit first.
#[derive(Clone, Copy)]
pub struct Field {
    pub bits: usize,
    pub value: usize,
}

// The bits of a move out of a mixed state.
fn arc(m: Mixed, to: State) -> Field
    ensures { (arc_bits (mixed m) to ≡ field_bits result.bits result.value) × (0 < result.bits) × (result.bits ≤ 4) × (result.value < 2 ^ result.bits) }
{
    match m {
        Mixed::BW => match to {
            State::Mixed(k) => match k {
                Mixed::BW => Field {
                    bits: 1,
                    value: 0b0,
                },
                Mixed::WB => Field {
                    bits: 3,
                    value: 0b010,
                },
            },
            State::Solid(s) => match s {
                Solid::WW => Field {
                    bits: 4,
                    value: 0b0010,
                },
                Solid::BB => Field {
                    bits: 4,
                    value: 0b1110,
                },
            },
        },
        Mixed::WB => match to {
            State::Mixed(k) => match k {
                Mixed::WB => Field {
                    bits: 1,
                    value: 0b1,
                },
                Mixed::BW => Field {
                    bits: 3,
                    value: 0b101,
                },
            },
            State::Solid(s) => match s {
                Solid::WW => Field {
                    bits: 4,
                    value: 0b0001,
                },
                Solid::BB => Field {
                    bits: 4,
                    value: 0b1101,
                },
            },
        },
    }
}

// The bit of a move out of a solid state: a number, as the bits of every move are, since it is put into octets.
fn way_out(from: Solid, to: State) -> usize
    ensures { (arc_bits (solid from) to ≡ field_bits 1 result) × (result < 2) }
{
    match to {
        State::Solid(_) => 0,
        State::Mixed(_) => 1,
    }
}

// What is due where a state has been entered, and where a frame starts.
pub fn due_in(state: State) -> StepDue
    ensures { result ≡ entered state }
{
    match state {
        State::Mixed(m) => StepDue::Move(m),
        State::Solid(s) => StepDue::Word(Nth::First, s),
    }
}

// A unit with which the page is finished.
fn last(bits: usize, value: usize, columns: usize) -> Unit
    ensures { result ≡ last_unit bits value columns }
{
    Unit {
        bits: Bits(bits),
        value,
        columns: Columns(columns),
        continuation: None,
    }
}

// A unit after which the page goes on, with what is due and the lengths then.
fn going_on(bits: usize, value: usize, columns: usize, due: StepDue, lengths: Lengths) -> Unit
    ensures { result ≡ unit_before due lengths bits value columns }
{
    Unit {
        bits: Bits(bits),
        value,
        columns: Columns(columns),
        continuation: Some(Continuation { due, lengths }),
    }
}

// A move out of a mixed state, or nothing where the page has ended.
fn moved(bitmap: &[u8], columns: usize, m: Mixed, encoded: Encoded) -> Unit
    requires { Page bitmap.now columns × (encoded.columns.0 ≤ columns) × ValidLengths encoded.lengths }
    ensures { IsNextUnit (columns_of bitmap.now) (moving m) encoded result }
{
    let at = encoded.columns.0;
    let lengths = encoded.lengths;
    if at == columns {
        return last(0, 0, 0);
    }
    let c = with_pels(column(bitmap, columns, at) as usize);
    let arc = arc(m, c);
    going_on(arc.bits, arc.value, 1, due_in(c), lengths)
}

// A word of a run: all ones, closing with its move out, or closing the page.
fn worded(bitmap: &[u8], columns: usize, word: Nth, s: Solid, encoded: Encoded) -> Unit
    requires { Page bitmap.now columns × (encoded.columns.0 ≤ columns) × ValidLengths encoded.lengths }
    ensures { IsNextUnit (columns_of bitmap.now) (wording word s) encoded result }
{
    let at = encoded.columns.0;
    let lengths = encoded.lengths;
    let n = length(s, lengths);
    let full = ones(n);
    let v = run_ahead(bitmap, columns, at, full, s);
    if v == full {
        let longer = with_length(s, after_ones(n), lengths);
        return going_on(n, v, v, StepDue::Word(Nth::Later, s), longer);
    }
    if at + v == columns {
        return last(n, v, v);
    }
    let c = with_pels(column(bitmap, columns, at + v) as usize);
    let out = way_out(s, c);
    let x = last_x(position_after(at + v));
    let closed = with_length(s, after_closing(word, n, v, x), lengths);
    going_on(n + 1, v + out * (full + 1), v + 1, due_in(c), closed)
}

// What comes next of a page of so many columns, where this is due behind what is encoded.
pub fn unit(bitmap: &[u8], columns: usize, due: StepDue, encoded: Encoded) -> Unit
    requires { Page bitmap.now columns × (encoded.columns.0 ≤ columns) × ValidLengths encoded.lengths }
    ensures { IsNextUnit (columns_of bitmap.now) due encoded result }
{
    match due {
        StepDue::Move(m) => moved(bitmap, columns, m, encoded),
        StepDue::Word(word, s) => worded(bitmap, columns, word, s, encoded),
    }
}
