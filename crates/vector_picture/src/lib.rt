// The columns of the appendix's three image frames against the first two rows of the bitmap that the RFC prints of them.
#![tactic(auto)]

ghost use Rattle.std.specs.Prelude.{◌<◌, ◌≤◌, length};

use frame_parse::header;
use octets::{bit, octet};
use part::read_part;
use vector_frames::{data_part, start_of};
use vector_text::fields::show_refused;
use vector_text::show::{named, words};

// The bits of a printed row, of which the last two are no pels.
const ROW: usize = 1728;

// Column i, an octet by its two pels, against the pels printed there.
fn show_column(rt: &impl Print, column: u8, rows: &[u8], i: usize)
    requires { i < 1726 }
{
    if column / 2 != bit(rows, i) {
        named(rt, b" other top pel at ", i);
    }
    if column % 2 != bit(rows, ROW + i) {
        named(rt, b" other bottom pel at ", i);
    }
}

// So many columns, the first of which is column `from` of the page. Answers where the next one stands.
fn show_columns(rt: &impl Print, columns: &[u8], n: usize, rows: &[u8], from: usize) -> usize
    requires { from ≤ 1726 }
    ensures { result ≤ 1726 }
{
    let on_page = n.min(1726 - from);
    for i in 0..on_page {
        show_column(rt, octet(columns, i), rows, from + i);
    }
    from + on_page
}

// The columns of a frame, as it was sent.
fn show_frame(rt: &impl Print, sent: &[u8], rows: &[u8], from: usize) -> usize
    requires { from ≤ 1726 }
    ensures { result ≤ 1726 }
{
    let h = header(sent);
    let part = data_part(sent);
    let mut out = [0u8; 1726];
    match read_part(&part, h.count, start_of(h), &mut out) {
        Ok(reading) => show_columns(rt, &out, reading.columns.0, rows, from),
        Err(refusal) => {
            show_refused(rt, refusal.reason);
            from
        }
    }
}

// The three image frames, records 2 to 4 of the text in sent form, one behind the other from column 0 on.
pub fn show_picture(rt: &impl Print, all: &[u8], rows: &[u8])
    requires { 760 ≤ length all.now }
{
    words(rt, b"picture");
    let second = show_frame(rt, &all[154..228], rows, 0);
    let third = show_frame(rt, &all[230..304], rows, second);
    let end = show_frame(rt, &all[306..380], rows, third);
    named(rt, b" columns ", end);
    words(rt, b"\n");
}
