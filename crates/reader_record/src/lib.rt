// A record of a page file, judged after those before it: what it comes to, and the progress then.
#![tactic(auto)]

ghost use Rattle.std.specs.Prelude.{◌≡◌, ◌<◌, ◌^◌};
ghost use Rattle.position.specs.Position.{columns_before};
ghost use Rattle.reader_record.specs.Record.{data_next, taken_next, next};

use chain::image_after;
use frame::{Header, Record};
use reader_progress::{FileProgress, RecordEffect, end_page, with_data, with_set_up};
use records::{Kind, due_at, frame_of, in_place};
use refusal::{Fault, Reason};
use register::Checker;

// A data frame: its sequence, then, if it has bits, its place in the chain of image frames.
fn data_next(p: FileProgress, h: Header, s: &[u8]) -> Result<RecordEffect, Fault>
    requires { (p.sequence < 4) × (columns_before p.image.position < 2 ^ 60) × (p.image.bits.0 < 2 ^ 60) }
    ensures { result ≡ data_next p h s.now }
{
    if h.sequence != p.sequence {
        return Err(Reason::SequenceWrong.into());
    }
    if h.count == 0 {
        return Ok(RecordEffect::On(Record::Data(h), with_data(p, p.image)));
    }
    let mut entries = [0u16; 512];
    let grown = image_after(p.image, h, s, &mut entries)?;
    Ok(RecordEffect::On(Record::Data(h), with_data(p, grown.image)))
}

// A frame taken apart.
fn taken_next(
    p: FileProgress,
    taken: Result<Record, Reason>,
    s: &[u8],
) -> Result<RecordEffect, Fault>
    requires { (p.sequence < 4) × (columns_before p.image.position < 2 ^ 60) × (p.image.bits.0 < 2 ^ 60) }
    ensures { result ≡ taken_next p taken s.now }
{
    match taken? {
        Record::SetUp(settings) => Ok(RecordEffect::On(
            Record::SetUp(settings),
            with_set_up(p, settings),
        )),
        Record::Data(h) => data_next(p, h, s),
    }
}

// Record k of the file.
pub fn record_next(
    checker: &Checker,
    file: &[u8],
    k: usize,
    p: FileProgress,
) -> Result<RecordEffect, Fault>
    requires { (k < 2 ^ 40) × (p.sequence < 4) × (columns_before p.image.position < 2 ^ 60) × (p.image.bits.0 < 2 ^ 60) }
    ensures { result ≡ next checker.now.setting file.now k p }
{
    let kind = due_at(file, 76 * k)?;
    if !in_place(kind, p.stage) {
        return Err(Reason::RecordOutOfPlace.into());
    }
    match kind {
        Kind::End => end_page(p, k),
        Kind::Frame(frame) => {
            let framed = frame_of(checker, file, 76 * k, frame);
            taken_next(p, framed.taken, &framed.octets)
        }
    }
}
