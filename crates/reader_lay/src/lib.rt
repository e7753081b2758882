// The second pass over a file that is a page: its columns are laid.
#![tactic(auto)]

ghost use Rattle.std.specs.Prelude.{map, ◌≡◌, ◌<◌, ◌^◌, ◌+◌, ◌*◌, ◌/◌, ◌%◌, ◌≤◌, length};
ghost use Rattle.position.specs.Position.{pels_per_line, octets_per_line, octets_in_front, columns_before, advanced};
ghost use Rattle.state.specs.Pels.{state_of};
ghost use Rattle.part_notes.specs.Notes.{spread};
ghost use Rattle.bitmap.specs.Laid.{Room, Laid};
ghost use Rattle.chain.specs.Chain.{frame_columns, blank};
ghost use Rattle.records.specs.Records.{due_at};
ghost use Rattle.reader_record.specs.LayingPass.{image_by, image_at, columns_over};
ghost use Rattle.reader_record.specs.Record.{columns_at};
ghost use Rattle.bitmap.specs.Form.{bitmap_of};
ghost use Rattle.bitmap.specs.Validity.{most_lines};

use bitmap_lay::{clear, lay};
use chain::{Image, blank_image, image_after, open_in};
use frame::{FrameKind, Header};
use frame_parse::header;
use part_notes::entry;
use position::Position;
use reader_progress::Page;
use records::{Kind, due_at, sent_frame};

// Lays the columns that entries say from a position on, and answers the position behind them.
fn lay_steps(out: &mut [u8], at: Position, entries: &[u16]) -> Position
    requires { Room (columns_before at) (length (spread entries.now)) out.old × (at.column < pels_per_line) }
    ensures { (result ≡ advanced at (length (spread entries.now))) × Laid (columns_before at) (map state_of (spread entries.now)) out.old out.new }
{
    let mut next = at;
    for step in entries {
        let e = *step as usize;
        next = lay(out, next, e / 4, (e % 4) as u8);
    }
    next
}

// Lays the columns of an image frame, behind the one that was left open.
fn lay_frame(out: &mut [u8], im: Image, h: Header, s: &[u8]) -> Image
    requires { Room (columns_before im.position) (length (frame_columns im h s.now)) out.old × (im.position.column < pels_per_line) × (im.bits.0 < 2 ^ 60) }
    ensures { (result ≡ image_by im h s.now) × Laid (columns_before im.position) (frame_columns im h s.now) out.old out.new }
{
    let mut entries = [0u16; 512];
    match image_after(im, h, s, &mut entries) {
        Err(_) => im,
        Ok(grown) => {
            let next = lay_steps(out, im.position, &[entry(h.state, open_in(im.end))]);
            lay_steps(out, next, &entries[..grown.steps]);
            grown.image
        }
    }
}

// Lays the columns of record k, which is a data record.
fn lay_data(out: &mut [u8], file: &[u8], k: usize, im: Image) -> Image
    requires due { due_at file.now (76 * k) ≡ Ok (Kind.Frame FrameKind.Data) }
    requires room { Room (columns_before im.position) (length (columns_at file.now k im)) out.old × (im.position.column < pels_per_line) × (im.bits.0 < 2 ^ 60) × (k < 2 ^ 40) }
    ensures { (result ≡ image_at file.now k im) × Laid (columns_before im.position) (columns_at file.now k im) out.old out.new }
{
    let s = sent_frame(file, 76 * k);
    let h = header(&s);
    if h.count == 0 {
        return im;
    }
    lay_frame(out, im, h, &s)
}

// Lays the columns of record k.
fn lay_record(out: &mut [u8], file: &[u8], k: usize, im: Image) -> Image
    requires { Room (columns_before im.position) (length (columns_at file.now k im)) out.old × (im.position.column < pels_per_line) × (im.bits.0 < 2 ^ 60) × (k < 2 ^ 40) }
    ensures { (result ≡ image_at file.now k im) × Laid (columns_before im.position) (columns_at file.now k im) out.old out.new }
{
    match due_at(file, 76 * k) {
        Ok(Kind::Frame(FrameKind::Data)) => lay_data(out, file, k, im),
        Ok(Kind::Frame(FrameKind::SetUp)) => im,
        Ok(Kind::End) => im,
        Err(_) => im,
    }
}

// Lays the page.
pub fn lay_page(out: &mut [u8], file: &[u8], page: Page)
    requires size { (length out.old ≡ octets_in_front + octets_per_line * page.lines) × (page.lines ≤ most_lines) × (page.octets ≤ 2 ^ 46) }
    requires pairs { (page.lines % 2 ≡ 0) × (length (columns_over file.now (page.octets / 76) 0 blank) ≤ pels_per_line * (page.lines / 2)) }
    ensures { out.new ≡ bitmap_of (page.lines / 2) (columns_over file.now (page.octets / 76) 0 blank) }
{
    clear(out, page.lines);
    let records = page.octets / 76;
    let mut im = blank_image();
    for k in 0..records {
        im = lay_record(out, file, k, im);
    }
}
