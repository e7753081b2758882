// Strict reading of a page file: its records in order, each header against the reading so far, and the page as a bitmap.
#![tactic(auto)]

ghost use Rattle.std.specs.Prelude.{◌≡◌};
ghost use Rattle.reader.specs.Call.{read_page};
ghost use Rattle.refusal.specs.Reply.{reply_of};

use position::{OCTETS_IN_FRONT, OCTETS_PER_LINE};
use reader_judge::{judge_page, octets_read};
use reader_lay::lay_page;
use reader_progress::Page;
use refusal::{Reason, Refusal, at_record};
use register::Check;

// Reads a page file under a check setting, and writes its page as a bitmap. Refused: a check setting that is not allowed; then the first record
// that is refused, in the order of the list; at the end record, an open column, columns that are no whole row pairs, too many lines, an
// output that is too short. A refusal leaves the output as it was, and success leaves what is behind the bitmap. Octets behind the end
// record are not read, nor are any behind the first 2^46.
pub fn read_page(file: &[u8], c: Check, out: &mut [u8]) -> Result<Page, Refusal>
    ensures { (reply_of result, out.new) ≡ read_page c file.now out.old }
{
    let page = judge_page(file, c)?;
    let room = OCTETS_IN_FRONT + OCTETS_PER_LINE * page.lines;
    if room > out.len() {
        return Err(at_record(Reason::OutputTooShort.into(), page.octets / 76));
    }
    let n = octets_read(file.len());
    lay_page(&mut out[..room], &file[..n], page);
    Ok(page)
}
