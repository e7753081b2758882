// Black pels and columns laid on a page. A page is cleared to white first; white columns then write nothing, and a run of others fills
// whole octets where it can.
#![tactic(auto)]

ghost use Rattle.std.specs.Prelude.{length, ◌≡◌, [], ◌+◌, ◌*◌, ◌≤◌, ◌<◌, ◌^◌, ◌%◌, replicate};
ghost use Rattle.bitmap.specs.Form.{bitmap_of_rows};
ghost use Rattle.bitmap.specs.Validity.{most_lines};
ghost use Rattle.bitmap.specs.Laid.{Blacked, SetIfBlack, Room, Laid};
ghost use Rattle.position.specs.Position.{pels_per_line, octets_per_line, octets_in_front, columns_before, advanced};
ghost use Rattle.state.specs.Pels.{state_of};

use basics::min;
use bitmap::put_sizes;
use position::{BITS_PER_LINE, OCTETS_PER_LINE, PELS_PER_LINE, Position, advance, top_bit};

// An all-white page of so many lines.
pub fn clear(out: &mut [u8], lines: usize)
    requires { (length out.old ≡ octets_in_front + octets_per_line * lines) × (lines ≤ most_lines) }
    ensures { out.new ≡ bitmap_of_rows (replicate lines []) }
{
    out.fill(0);
    put_sizes(out, lines);
}

// Sets the bits of octet i from `from` up to `to`.
fn blacken_octet(out: &mut [u8], i: usize, from: usize, to: usize)
    requires { (from ≤ to) × (to ≤ 8) × (i < length out.old) × (i < 2 ^ 60) }
    ensures { Blacked (8 * i + from) (8 * i + to) out.old out.new }
{
    let mask: usize = (255 >> from) - (255 >> to);
    out[i] = out[i] | mask as u8;
}

// Sets the bits a up to b, by whole octets between the first and the last.
fn blacken(out: &mut [u8], a: usize, b: usize)
    requires { (a ≤ b) × (b ≤ 8 * length out.old) × (b < 2 ^ 60) }
    ensures { Blacked a b out.old out.new }
{
    let i = a / 8;
    let j = b / 8;
    if i == j {
        if a < b {
            blacken_octet(out, i, a % 8, b % 8);
        }
    } else {
        blacken_octet(out, i, a % 8, 8);
        out[i + 1..j].fill(255);
        if b % 8 > 0 {
            blacken_octet(out, j, 0, b % 8);
        }
    }
}

// The same where the pel is black, and nothing where it is white.
pub fn set_if_black(out: &mut [u8], pel: u8, a: usize, b: usize)
    requires { (a ≤ b) × (b ≤ 8 * length out.old) × (b < 2 ^ 60) × (pel < 2) }
    ensures { SetIfBlack pel a b out.old out.new }
{
    if pel == 1 {
        blacken(out, a, b);
    }
}

// The same for the bits of octet i from `from` up to `to`.
fn set_octet_if_black(out: &mut [u8], pel: u8, i: usize, from: usize, to: usize)
    requires { (from ≤ to) × (to ≤ 8) × (i < length out.old) × (i < 2 ^ 60) × (pel < 2) }
    ensures { SetIfBlack pel (8 * i + from) (8 * i + to) out.old out.new }
{
    if pel == 1 {
        blacken_octet(out, i, from, to);
    }
}

// Lays n columns that stand in one row pair. Where they stand in one octet of each row, both rows take the same mask.
fn lay_in_pair(out: &mut [u8], at: Position, n: usize, pels: u8)
    requires { Room (columns_before at) n out.old × (0 < n) × (at.column + n ≤ pels_per_line) × (pels < 4) }
    ensures { Laid (columns_before at) (replicate n (state_of pels)) out.old out.new }
{
    let top = top_bit(at);
    let i = top / 8;
    let from = top % 8;
    let to = from + n;
    if to <= 8 {
        set_octet_if_black(out, pels / 2, i, from, to);
        set_octet_if_black(out, pels % 2, i + OCTETS_PER_LINE, from, to);
    } else {
        let bottom = top + BITS_PER_LINE;
        set_if_black(out, pels / 2, top, top + n);
        set_if_black(out, pels % 2, bottom, bottom + n);
    }
}

// Lays n columns of the state with these pels from a position on, and answers the position behind them.
pub fn lay(out: &mut [u8], at: Position, n: usize, pels: u8) -> Position
    requires { Room (columns_before at) n out.old × (at.column < pels_per_line) × (pels < 4) }
    ensures { (result ≡ advanced at n) × Laid (columns_before at) (replicate n (state_of pels)) out.old out.new }
{
    if pels == 0 {
        return advance(at, n);
    }
    let mut next = at;
    let mut left = n;
    // A while: the step varies, up to the end of a row pair.
    while left > 0 {
        let m = min(left, PELS_PER_LINE - next.column);
        lay_in_pair(out, next, m, pels);
        next = advance(next, m);
        left -= m;
    }
    next
}
