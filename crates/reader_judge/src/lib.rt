// The first pass over a file: every record is judged in its order, and nothing is written.
#![tactic(auto)]

ghost use Rattle.std.specs.Prelude.{◌≡◌, ◌≤◌, min, length};
ghost use Rattle.reader_judge.specs.File.{most_octets, file_reading_by, judgement_of, judge_page};
ghost use Rattle.refusal.specs.Reply.{reply_of};

use reader_progress::{Page, RecordEffect, first_progress};
use reader_record::record_next;
use refusal::{Reason, Refusal, at_record};
use register::{Check, Checker};

// The most octets of a file that are read.
const MOST_OCTETS: usize = 0x4000_0000_0000;

// Judges a file, from its first record on.
fn judge(file: &[u8], checker: &Checker) -> Result<Page, Refusal>
    requires { length file.now ≤ most_octets }
    ensures { reply_of result ≡ judgement_of (file_reading_by checker.now.setting file.now) }
{
    let mut p = first_progress();
    let mut k = 0;
    // A loop: the records say when it ends.
    loop {
        match record_next(checker, file, k, p) {
            Err(fault) => return Err(at_record(fault, k)),
            Ok(RecordEffect::Page(page)) => return Ok(page),
            Ok(RecordEffect::On(_, q)) => p = q,
        }
        k += 1;
    }
}

// The octets of a file that are read.
pub fn octets_read(n: usize) -> usize
    ensures { result ≡ min n most_octets }
{
    if n < MOST_OCTETS { n } else { MOST_OCTETS }
}

// Judges a file as `read_page` does, up to the room for its page: a page, or the first refusal.
pub fn judge_page(file: &[u8], c: Check) -> Result<Page, Refusal>
    ensures { reply_of result ≡ judge_page c file.now }
{
    let Some(checker) = Checker::new(c) else {
        return Err(Reason::RequestNotAllowed.into());
    };
    let n = octets_read(file.len());
    judge(&file[..n], &checker)
}
