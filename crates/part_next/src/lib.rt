// What comes next in a data part: a move out of a mixed state, a word of a run, a move out of a solid state.
#![tactic(auto)]

ghost use Rattle.std.specs.Prelude.{◌≡◌, ◌<◌, ◌^◌, ◌≤◌};
ghost use Rattle.part_next.specs.Next.{own, solid_of, Moves, Words, Leaves};
ghost use Rattle.octets.specs.Bits.{bits_from, field_at};
ghost use Rattle.diagram.specs.Diagram.{ValidContext};

use diagram::{Bits, Columns, Context, Lengths, length, ones, with_length};
use field_length::{Nth, after_closing, after_ones};
use octets::{bit_of, first_bits, octet_at};
use position::x_after;
use state::{Mixed, Solid};

// A move out of a mixed state: to itself, to the other mixed state, to a solid one.
#[derive(Clone, Copy)]
pub enum MixedMove {
    Stay,
    Cross,
    Leave(Solid),
}

// A word: its bits, the columns that it lays, which are its value, and the lengths after it.
#[derive(Clone, Copy)]
pub struct Fetched {
    pub bits: Bits,
    pub columns: Columns,
    pub lengths: Lengths,
}

// A word of a run: all ones, or closing.
#[derive(Clone, Copy)]
pub enum Word {
    Ones(Fetched),
    Closing(Fetched),
}

// A move out of a solid state: to the other, to a mixed one, an open one.
#[derive(Clone, Copy)]
pub enum SolidMove {
    ToSolid,
    ToMixed(Mixed),
    Open,
}

// The first bit of every arc out of a mixed state: a number, since it is compared with bits that octets hold. `capture_records::command_of` is
// only of the same form.
fn own_bit(m: Mixed) -> u8
    ensures { result ≡ own m }
{
    match m {
        Mixed::WB => 1,
        Mixed::BW => 0,
    }
}

// The solid state that the last bit of an arc of four says. `c_check::order_of` is only of the same form: what a bit of the diagram says and what
// a number of the C interface says are better apart.
fn solid_of(b: u8) -> Solid
    ensures { result ≡ solid_of b }
{
    if b == 0 { Solid::WW } else { Solid::BB }
}

// The move out of a mixed state that bits say: its arcs all begin with one bit, and which it is needs up to four. That bit alone stays in
// the state: so where there is no arc, one bit has a reading, or none has, which is answered.
pub fn mixed_move(octets: &[u8], at: usize, left: usize, m: Mixed) -> Result<MixedMove, Bits>
    requires { 0 < left }
    ensures { Moves m (bits_from octets.now at left) result }
{
    let own = own_bit(m);
    let next = octet_at(octets, at);
    if bit_of(next, 0) != own {
        return Err(Bits(0));
    }
    if left == 1 {
        return Ok(MixedMove::Stay);
    }
    if bit_of(next, 1) == own {
        return Ok(MixedMove::Stay);
    }
    if left == 2 {
        return Err(Bits(1));
    }
    let third = bit_of(next, 2);
    if left == 3 {
        if third == own {
            return Ok(MixedMove::Cross);
        }
        return Err(Bits(1));
    }
    let last = bit_of(next, 3);
    if third == own {
        if last != own {
            return Ok(MixedMove::Cross);
        }
        return Ok(MixedMove::Leave(solid_of(last)));
    }
    if last == own {
        return Err(Bits(1));
    }
    Ok(MixedMove::Leave(solid_of(last)))
}

// The value of the word of n bits at bit `at`, low bit first.
fn fetch(octets: &[u8], at: usize, n: usize) -> usize
    requires { n ≤ 7 }
    ensures { (result ≡ field_at octets.now at n) × (result < 2 ^ n) }
{
    first_bits(octet_at(octets, at), n)
}

// The word that comes first, or none where too few bits are left.
pub fn run_word(
    octets: &[u8],
    at: usize,
    left: usize,
    word: Nth,
    s: Solid,
    context: Context,
) -> Option<Word>
    requires { (0 < left) × ValidContext context }
    ensures { Words word s context (bits_from octets.now at left) result }
{
    let lengths = context.lengths;
    let n = length(s, lengths);
    if left < n {
        return None;
    }
    let v = fetch(octets, at, n);
    if v == ones(n) {
        let l = with_length(s, after_ones(n), lengths);
        return Some(Word::Ones(Fetched {
            bits: Bits(n),
            columns: Columns(v),
            lengths: l,
        }));
    }
    let x = x_after(context.x, v);
    let l = with_length(s, after_closing(word, n, v, x), lengths);
    Some(Word::Closing(Fetched {
        bits: Bits(n),
        columns: Columns(v),
        lengths: l,
    }))
}

// The move out of a solid state that bits say, or none where they have ended: a 1 enters the mixed state whose arcs begin with the bit after it.
pub fn solid_move(octets: &[u8], at: usize, left: usize) -> Option<SolidMove>
    ensures { Leaves (bits_from octets.now at left) result }
{
    if left == 0 {
        return None;
    }
    let next = octet_at(octets, at);
    if bit_of(next, 0) == 0 {
        return Some(SolidMove::ToSolid);
    }
    if left == 1 {
        return Some(SolidMove::Open);
    }
    if bit_of(next, 1) == 0 {
        Some(SolidMove::ToMixed(Mixed::BW))
    } else {
        Some(SolidMove::ToMixed(Mixed::WB))
    }
}
