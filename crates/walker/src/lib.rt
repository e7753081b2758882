// A walker goes through a file record by record: it keeps hold of the lent file and its own place in it. It judges each record by itself;
// the order of the records, the sequence of the data records and the chain of image frames are the reader's.
#![tactic(auto)]

ghost use Rattle.std.specs.Prelude.{◌≡◌};
ghost use Rattle.record_found.specs.Found.{step_at};
ghost use Rattle.walker.specs.Walk.{walked_on, place_of};

use record_found::{Found, step_at};
use refusal::Refusal;
use register::Check;

// A walker: the file that it was lent, and its place in it.
#[derive(Clone, Copy)]
pub struct Walker<'a> {
    pub file: &'a [u8],
    pub at: usize,
}

// A walker at the file's start.
pub fn new<'a>(file: &'a [u8]) -> Walker<'a>
    ensures { (result.file ≡ file.entry) × (result.at ≡ 0) }
{
    Walker { file, at: 0 }
}

// The octet at which a walker stands.
pub fn place<'a>(w: Walker<'a>) -> usize
    ensures { result ≡ w.entry.at }
{
    w.at
}

// What a walker finds where it stands. It goes on behind a record, and keeps hold of its file.
pub fn next<'s, 'a>(w: &'s mut Walker<'a>, c: Check) -> Result<Found, Refusal>
    ensures { (result ≡ (step_at c w.old.file.now w.old.at).found) × (w.new ≡ walked_on c w.old) }
{
    let step = step_at(w.file, w.at, c);
    w.at = step.next;
    step.found
}

// What a walker finds after so many steps.
fn walk(file: &[u8], c: Check, steps: usize) -> Result<Found, Refusal>
    ensures { result ≡ (step_at c file.now (place_of c file.now steps)).found }
{
    let mut w = new(file);
    for _ in 0..steps {
        let _ = next(&mut w, c);
    }
    next(&mut w, c)
}

// What a walker finds after k steps. It stays at the end record and at a refusal, so this is record k, or where the walk ended before it;
// and no walk goes on for more steps than the file has room for records.
pub fn nth(file: &[u8], c: Check, k: usize) -> Result<Found, Refusal>
    ensures { result ≡ (step_at c file.now (place_of c file.now k)).found }
{
    let most = file.len() / 76;
    if k < most {
        walk(file, c, k)
    } else {
        walk(file, c, most)
    }
}
