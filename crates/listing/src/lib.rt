// The listing of a file: a line for each record, and then what the file comes to.
#![tactic(auto)]

ghost use Rattle.std.specs.Prelude.{◌≡◌, ◌≤◌, length};
ghost use Rattle.basics.specs.Cursor.{HasRoom, Writes};
ghost use Rattle.listing.specs.Listing.{most_file, most_text, listing_by, listing, list as listed};
ghost use Rattle.refusal.specs.Reply.{reply_of};

use basics::Cursor;
use reader_progress::{RecordEffect, first_progress};
use reader_record::record_next;
use record_lines::{put_end, put_record, put_refused};
use refusal::{Reason, Refusal, at_record};
use register::{Check, Checker};

// A file that has more octets is too long to be listed.
const MOST_FILE: usize = 65536;

// The room for any listing: a record's line has no more octets than the record, and the last lines few more.
const MOST_TEXT: usize = 65612;

// The listing of a file that is not too long, under an allowed check setting.
fn put_listing(out: &mut Cursor<'_, u8>, file: &[u8], checker: &Checker)
    requires { (length file.now ≤ most_file) × HasRoom most_text out.old }
    ensures { Writes (listing_by checker.now.setting file.now) out.old out.new }
{
    let mut p = first_progress();
    let mut k = 0;
    // A loop: the records say when it ends.
    loop {
        match record_next(checker, file, k, p) {
            Err(fault) => return put_refused(out, at_record(fault, k)),
            Ok(RecordEffect::Page(page)) => return put_end(out, k, page.lines),
            Ok(RecordEffect::On(record, q)) => {
                put_record(out, k, record);
                p = q;
            }
        }
        k += 1;
    }
}

// The whole text: `too long`, a refused check setting, or the listing.
fn put_text(out: &mut Cursor<'_, u8>, file: &[u8], c: Check)
    requires { HasRoom most_text out.old }
    ensures { Writes (listing c file.now) out.old out.new }
{
    if file.len() > MOST_FILE {
        return out.put_all(b"too long\n");
    }
    match Checker::new(c) {
        Some(checker) => put_listing(out, file, &checker),
        None => put_refused(out, Reason::RequestNotAllowed.into()),
    }
}

// Writes the listing of a file under a check setting as text, each line ended by a line feed: `too long` for a file of more than 65,536 octets; else
// a line a record, where a refusal takes the place of its record's line and ends the list, and `ok lines N` behind the end record.
// Refused by 16, at record 0, where the text has no room; 65,612 octets are room for any. A refusal leaves the output as it was, and success leaves
// what is behind the text.
pub fn list(file: &[u8], c: Check, out: &mut [u8]) -> Result<usize, Refusal>
    ensures { (reply_of result, out.new) ≡ listed c file.now out.old }
{
    let mut space = [0u8; MOST_TEXT];
    let mut text = Cursor {
        items: &mut space,
        at: 0,
    };
    put_text(&mut text, file, c);
    let n = text.at;
    if n > out.len() {
        return Err(Reason::OutputTooShort.into());
    }
    out[..n].copy_from_slice(text.since(0));
    Ok(n)
}
