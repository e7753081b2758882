// A bitmap written as a portable bitmap.
#![tactic(auto)]

ghost use Rattle.std.specs.Prelude.{◌≡◌, length};
ghost use mathlib.Core.List.{flatten};
ghost use Rattle.basics.specs.Cursor.{HasRoom, Writes};
ghost use Rattle.printing.specs.Page.{rows_of};
ghost use Rattle.pbm.specs.Written.{head_text, pbm_of_bitmap};
ghost use Rattle.refusal.specs.Reply.{reply_at_once};

use basics::Cursor;
use position::OCTETS_PER_LINE;
use printing::{PrintedPage, Times};
use refusal::Reason;
use text::put_named;

// Writes the header of a file of so many lines. Lines of other texts end in a number too: what they share is `put_named`.
fn put_head(out: &mut Cursor<'_, u8>, lines: usize)
    requires { HasRoom (length (head_text lines)) out.old }
    ensures { Writes (head_text lines) out.old out.new }
{
    put_named(out, b"P4\n1726 ", lines);
    out.put_all(b"\n");
}

// Writes the rows of a page as they are printed.
fn put_rows(out: &mut Cursor<'_, u8>, page: &PrintedPage<'_>)
    requires { HasRoom (length (flatten (rows_of page.now))) out.old }
    ensures { Writes (flatten (rows_of page.now)) out.old out.new }
{
    for k in 0..page.rows() {
        out.put_all(page.row(k));
    }
}

// Writes a bitmap as a portable bitmap, each line once, twice or three times. Refused, in this order: a bitmap that is not allowed, an output
// that is too short. A refusal leaves the output as it was, and success leaves what is behind the file.
pub fn pbm_of_bitmap(bitmap: &[u8], times: Times, out: &mut [u8]) -> Result<usize, Reason>
    ensures { (reply_at_once result, out.new) ≡ pbm_of_bitmap bitmap.now times out.old }
{
    bitmap::judge(bitmap)?;
    let lines = bitmap::lines(bitmap);
    let page = PrintedPage {
        bitmap,
        lines,
        times,
    };
    let rows = page.rows();
    let mut scratch = [0u8; 16];
    let mut head = Cursor {
        items: &mut scratch,
        at: 0,
    };
    put_head(&mut head, rows);
    let n = head.at + OCTETS_PER_LINE * rows;
    if n > out.len() {
        return Err(Reason::OutputTooShort);
    }
    let mut file = Cursor { items: out, at: 0 };
    put_head(&mut file, rows);
    put_rows(&mut file, &page);
    Ok(n)
}
