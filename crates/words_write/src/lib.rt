// The run words of a bitmap.
#![tactic(auto)]

ghost use Rattle.std.specs.Prelude.{◌≡◌, ◌+◌, ◌≤◌, ◌*◌, ◌<◌, ◌^◌, length};
ghost use Rattle.position.specs.Position.{pels_per_line, octets_per_line, octets_in_front};
ghost use Rattle.refusal.specs.Reply.{reply_of};
ghost use Rattle.words.specs.Calls.{words_of_bitmap};
ghost use Rattle.basics.specs.Cursor.{HasRoom, Writes};
ghost use Rattle.words_write.specs.Written.{run_word, line_end, words_from, WrittenWords};
ghost use Rattle.bitmap.specs.Form.{row_at};
ghost use Rattle.words.specs.Lines.{ended_line, words_of_lines};

use basics::{Cursor, min};
use bitmap_find::first_change;
use octets::bit;
use position::{OCTETS_IN_FRONT, OCTETS_PER_LINE, PELS_PER_LINE};
use refusal::{Reason, Refusal};
use words::word;

// Writes the run words of a bitmap. Refused, in this order: a bitmap whose sizes, then one whose length or trailing bits are not
// allowed, an output that is too short. A refusal leaves the output as it was, and success leaves what is behind the words.
pub fn words_of_bitmap(bitmap: &[u8], out: &mut [i16]) -> Result<usize, Refusal>
    ensures { (reply_of result, out.new) ≡ words_of_bitmap bitmap.now out.old }
{
    bitmap::judge(bitmap)?;
    let n = write(bitmap, 0, bitmap::lines(bitmap), 1, out)?;
    out[n] = 0;
    Ok(n + 1)
}

// Writes the run words of a bitmap's lines from line `from` on, n of them or as many as there are, each with the 0 that ends it, and without
// the 0 that ends a page. Refused as the words of the whole bitmap are; what is lent is left so too.
pub fn words_of_lines(
    bitmap: &[u8],
    from: usize,
    n: usize,
    out: &mut [i16],
) -> Result<usize, Refusal>
    ensures { (reply_of result, out.new) ≡ words_of_lines bitmap.now from n out.old }
{
    bitmap::judge(bitmap)?;
    let lines = bitmap::lines(bitmap);
    let first = min(from, lines);
    let end = first + min(n, lines - first);
    let words = write(bitmap, first, end, 0, out)?;
    Ok(words)
}

// Writes the word of a run from pel x up to pel y, unless it is trailing white.
fn put_run(out: &mut Cursor<'_, i16>, s: u8, x: usize, y: usize)
    requires { (x ≤ y) × (y ≤ pels_per_line) × HasRoom (length (run_word s x y)) out.old }
    ensures { Writes (run_word s x y) out.old out.new }
{
    if s == 3 {
        out.put(word(true, y - x));
    } else if y < PELS_PER_LINE {
        out.put(word(false, y - x));
    }
}

// Ends a line that has so many words so far.
fn put_line_end(out: &mut Cursor<'_, i16>, words: usize)
    requires { HasRoom (length (line_end words)) out.old }
    ensures { Writes (line_end words) out.old out.new }
{
    if words == 0 {
        out.put(1);
    }
    out.put(0);
}

// Writes the words of line r, and the 0 behind them.
fn put_line(out: &mut Cursor<'_, i16>, bitmap: &[u8], r: usize)
    requires { (octets_in_front + octets_per_line * (r + 1) ≤ length bitmap.now) × (r < 65536) × HasRoom (length (ended_line (row_at bitmap.now r))) out.old }
    ensures { Writes (ended_line (row_at bitmap.now r)) out.old out.new }
{
    let first = out.at;
    let base = OCTETS_IN_FRONT + OCTETS_PER_LINE * r;
    let mut s = 3 * bit(bitmap, 8 * base);
    let mut x = 0;
    // A while: the step varies, up to the end of a run.
    while x < PELS_PER_LINE {
        let y = first_change(bitmap, base, base, x, PELS_PER_LINE, s);
        put_run(out, s, x, y);
        s = 3 - s;
        x = y;
    }
    let words = out.at - first;
    put_line_end(out, words);
}

// The number of words of the lines from one up to another.
fn count(bitmap: &[u8], from: usize, end: usize) -> usize
    requires { (from ≤ end) × (end < 65536) × (octets_in_front + octets_per_line * end ≤ length bitmap.now) }
    ensures { (result ≡ length (words_from bitmap.now from end)) × (result < 2 ^ 40) }
{
    let mut scratch = [0i16; PELS_PER_LINE + 1];
    let mut n = 0;
    for r in from..end {
        let mut line = Cursor {
            items: &mut scratch,
            at: 0,
        };
        put_line(&mut line, bitmap, r);
        n += line.at;
    }
    n
}

// Writes the words of the lines from one up to another.
fn put_lines(out: &mut Cursor<'_, i16>, bitmap: &[u8], from: usize, end: usize)
    requires { (from ≤ end) × (end < 65536) × (octets_in_front + octets_per_line * end ≤ length bitmap.now) × HasRoom (length (words_from bitmap.now from end)) out.old }
    ensures { Writes (words_from bitmap.now from end) out.old out.new }
{
    for r in from..end {
        put_line(out, bitmap, r);
    }
}

// Writes the words of the lines from one up to another, where there is room for them and for so many behind them; answers their number.
fn write(
    bitmap: &[u8],
    from: usize,
    end: usize,
    behind: usize,
    out: &mut [i16],
) -> Result<usize, Reason>
    requires { (from ≤ end) × (end < 65536) × (octets_in_front + octets_per_line * end ≤ length bitmap.now) × (behind ≤ 1) }
    ensures { WrittenWords (words_from bitmap.now from end) behind result out.old out.new }
{
    let words = count(bitmap, from, end);
    if words + behind > out.len() {
        return Err(Reason::OutputTooShort);
    }
    let mut lines = Cursor { items: out, at: 0 };
    put_lines(&mut lines, bitmap, from, end);
    Ok(words)
}
