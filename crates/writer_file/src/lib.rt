// The file of a page: its records, counted and written.
#![tactic(auto)]

ghost use Rattle.std.specs.Prelude.{◌≡◌, true, ◌∷◌, ◌++◌, ◌+◌, ◌<◌, ◌^◌, ◌*◌, ◌≤◌, length};
ghost use Rattle.position.specs.Position.{columns_per_line};
ghost use Rattle.writer_fill.specs.Filling.{start_of, one_if, if_bits};
ghost use Rattle.bitmap.specs.Form.{lines_of, columns_of};
ghost use Rattle.units.specs.Found.{Page};
ghost use Rattle.writer_fill.specs.Frames.{frames_of};
ghost use Rattle.basics.specs.Cursor.{HasRoom, Writes};
ghost use Rattle.writer_file.specs.File.{header_with, data_records, file_of};
ghost use Rattle.octets.specs.Bits.{bits_from};
ghost use Rattle.frame.specs.Layout.{data_front, stored_frame, end_record};
ghost use Rattle.register.specs.Setting.{allowed_check};

use basics::Cursor;
use bitmap::lines;
use diagram::Bits;
use frame::Header;
use frame_build::{data_frame, set_up_frame};
use position::{COLUMNS_PER_LINE, last_x, position_after};
use record_build::{put_end, put_record};
use register::{Check, Checker};
use settings::Settings;
use writer_fill::{FilledFrame, FrameStart, fill, first_start, next_start};

// So many frames, and one more if it has bits.
fn with_frame(n: usize, bits: Bits) -> usize
    requires { n < 2 ^ 60 }
    ensures { result ≡ n + one_if bits.0 }
{
    if bits.0 > 0 { n + 1 } else { n }
}

// The number of image frames.
fn count_frames(bitmap: &[u8], most: usize) -> usize
    requires { Page bitmap.now (columns_per_line * lines_of bitmap.now) × (most ≤ 9600) }
    ensures { (result ≡ length (frames_of most (columns_of bitmap.now))) × (result < 2 ^ 40) }
{
    let columns = COLUMNS_PER_LINE * lines(bitmap);
    let mut head = first_start();
    let mut n = 0;
    // A loop: the frames say when the page is finished, and a last one without bits is not counted.
    loop {
        let mut data = [0u8; 64];
        match fill(bitmap, columns, head, most, &mut data) {
            FilledFrame::Full(p) => {
                n += 1;
                head = next_start(head, p);
            }
            FilledFrame::Finished(p) => return with_frame(n, p.bits),
        }
    }
}

// The octets of the file: a set-up record, the frame of count 0, the image frames, and the end record.
pub fn file_octets(bitmap: &[u8], most: usize) -> usize
    requires { Page bitmap.now (columns_per_line * lines_of bitmap.now) × (most ≤ 9600) }
    ensures { result ≡ 76 * (2 + length (frames_of most (columns_of bitmap.now))) + 2 }
{
    76 * (2 + count_frames(bitmap, most)) + 2
}

// The header of data record i, of a frame with so many bits.
fn header_for(i: usize, head: FrameStart, bits: Bits) -> Header
    ensures { result ≡ header_with i bits.0 (start_of head) }
{
    Header {
        sequence: i % 4,
        count: bits.0,
        x: last_x(position_after(head.before)),
        black: head.lengths.black,
        white: head.lengths.white,
        state: head.state,
    }
}

// Writes a data record.
fn put_data(out: &mut Cursor<'_, u8>, checker: &Checker, h: Header, data: &[u8])
    requires { HasRoom 76 out.old }
    ensures { Writes (76 ∷ 57 ∷ stored_frame checker.now.setting (data_front h (bits_from «data».now 0 512))) out.old out.new }
{
    let frame = data_frame(checker, h, data);
    put_record(out, 57, &frame);
}

// Writes a data record, if its frame has bits.
fn put_frame(out: &mut Cursor<'_, u8>, checker: &Checker, h: Header, data: &[u8])
    requires { HasRoom (76 * one_if h.count) out.old }
    ensures { Writes (if_bits h.count (76 ∷ 57 ∷ stored_frame checker.now.setting (data_front h (bits_from «data».now 0 512)))) out.old out.new }
{
    if h.count > 0 {
        put_data(out, checker, h, data);
    }
}

// Writes the image frames and the end record.
fn write_frames(out: &mut Cursor<'_, u8>, bitmap: &[u8], most: usize, checker: &Checker)
    requires page { Page bitmap.now (columns_per_line * lines_of bitmap.now) × (most ≤ 9600) }
    requires size { HasRoom (76 * length (frames_of most (columns_of bitmap.now)) + 2) out.old }
    ensures { Writes (data_records checker.now.setting 1 (frames_of most (columns_of bitmap.now)) ++ end_record) out.old out.new }
{
    let columns = COLUMNS_PER_LINE * lines(bitmap);
    let mut head = first_start();
    let mut i = 1;
    // A loop: the frames say when the page is finished, and a last one without bits is not written.
    loop {
        let mut data = [0u8; 64];
        match fill(bitmap, columns, head, most, &mut data) {
            FilledFrame::Full(p) => {
                put_data(out, checker, header_for(i, head, p.bits), &data);
                i += 1;
                head = next_start(head, p);
            }
            FilledFrame::Finished(p) => {
                put_frame(out, checker, header_for(i, head, p.bits), &data);
                return put_end(out);
            }
        }
    }
}

// Writes the file into an output of its size.
pub fn write_file(out: &mut [u8], bitmap: &[u8], settings: Settings, most: usize, c: Check)
    requires allowed { (allowed_check c ≡ true) × Page bitmap.now (columns_per_line * lines_of bitmap.now) × (most ≤ 9600) }
    requires size { length out.old ≡ 76 * (2 + length (frames_of most (columns_of bitmap.now))) + 2 }
    ensures { out.new ≡ file_of c settings most (columns_of bitmap.now) }
{
    let checker = Checker::new(c).unwrap();
    let mut file = Cursor { items: out, at: 0 };
    let frame = set_up_frame(&checker, settings);
    put_record(&mut file, 56, &frame);
    // The frame of count 0.
    let data = [0u8; 64];
    let h = header_for(0, first_start(), Bits(0));
    put_data(&mut file, &checker, h, &data);
    write_frames(&mut file, bitmap, most, &checker);
}
