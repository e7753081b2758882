// The bitmap form of a page, judged, and the octets in front of its rows.
#![tactic(auto)]

ghost use Rattle.std.specs.Prelude.{length, ◌≡◌, ◌+◌, ◌*◌, ◌<◌, ◌≤◌, get_or};
ghost use Rattle.bitmap.specs.Validity.{lines_allowed, size_allowed, trailing0, content_allowed, bitmap_validity};
ghost use Rattle.bitmap.specs.Form.{sizes, lines_of};
ghost use Rattle.basics.specs.Placed.{placed};
ghost use Rattle.position.specs.Position.{octets_in_front};

use octets::octet;
use position::{OCTETS_IN_FRONT, OCTETS_PER_LINE, PELS_PER_LINE};
use refusal::Reason;

// The largest number of lines of a page.
pub const MOST_LINES: usize = 6000;

// The octets of the largest bitmap.
pub const MOST_OCTETS: usize = OCTETS_IN_FRONT + OCTETS_PER_LINE * MOST_LINES;

// The last octet of the first line.
const FIRST_LINE_END: usize = OCTETS_IN_FRONT + OCTETS_PER_LINE - 1;

// Whether a page may have so many lines: they come in pairs, at least one.
pub fn lines_allowed(lines: usize) -> bool
    ensures { result ≡ lines_allowed lines }
{
    if lines == 0 {
        return false;
    }
    if lines % 2 == 0 {
        lines <= MOST_LINES
    } else {
        false
    }
}

// Two octets as a number, the low octet first.
fn two_octets(s: &[u8], i: usize) -> usize
    requires { i < 4 }
    ensures { (result ≡ get_or s.now i 0 + 256 * get_or s.now (i + 1) 0) × (result < 65536) }
{
    octet(s, i) as usize + 256 * octet(s, i + 1) as usize
}

// The lines that a bitmap says it has.
pub fn lines(bitmap: &[u8]) -> usize
    ensures { (result ≡ lines_of bitmap.now) × (result < 65536) }
{
    two_octets(bitmap, 2)
}

fn size_allowed(bitmap: &[u8]) -> bool
    ensures { result ≡ size_allowed bitmap.now }
{
    if bitmap.len() < OCTETS_IN_FRONT {
        return false;
    }
    if two_octets(bitmap, 0) == PELS_PER_LINE {
        lines_allowed(lines(bitmap))
    } else {
        false
    }
}

// Whether the two bits behind each line's pels are 0.
fn trailing_0(bitmap: &[u8], lines: usize) -> bool
    requires { lines < 65536 }
    ensures { result ≡ trailing0 bitmap.now lines }
{
    for n in (0..lines).rev() {
        if octet(bitmap, FIRST_LINE_END + OCTETS_PER_LINE * n) % 4 != 0 {
            return false;
        }
    }
    true
}

fn content_allowed(bitmap: &[u8]) -> bool
    ensures { result ≡ content_allowed bitmap.now }
{
    let n = lines(bitmap);
    if bitmap.len() == OCTETS_IN_FRONT + OCTETS_PER_LINE * n {
        trailing_0(bitmap, n)
    } else {
        false
    }
}

// Whether a bitmap may be taken: its sizes, then its length and the bits behind its lines.
pub fn judge(bitmap: &[u8]) -> Result<(), Reason>
    ensures { result ≡ bitmap_validity bitmap.now }
{
    if !size_allowed(bitmap) {
        return Err(Reason::BitmapSizeNotAllowed);
    }
    if content_allowed(bitmap) {
        Ok(())
    } else {
        Err(Reason::BitmapContentNotAllowed)
    }
}

// Writes the octets in front of a page's rows: the pels of a line, and so many lines.
pub fn put_sizes(out: &mut [u8], lines: usize)
    requires { (octets_in_front ≤ length out.old) × (lines < 65536) }
    ensures { out.new ≡ placed 0 (sizes lines) out.old }
{
    out[0] = (PELS_PER_LINE % 256) as u8;
    out[1] = (PELS_PER_LINE / 256) as u8;
    out[2] = (lines % 256) as u8;
    out[3] = (lines / 256) as u8;
}
