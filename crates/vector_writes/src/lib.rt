// Pages written by our rule: the appendix's, against the RFC's own records; the white one, and one with a run of several words that ends at the
// right edge, against those put together by hand.
#![tactic(auto)]

ghost use Rattle.std.specs.Prelude.{◌≤◌, ◌<◌, length};

use bitmap_lay::clear;
use frame::turned;
use frame_parse::header;
use reader::read_page;
use vector_files::{edge_page, setting, white_page, whole_page};
use vector_frames::show_differences;
use vector_text::show::{named, words};
use words_read::bitmap_of_words;
use writer::{SettingBits, write_page};

// Writes a page in detail mode, eleven inch, for 4.8 kbit/s; answers the octets written: of a page that is refused that is 0.
fn written(bitmap: &[u8], out: &mut [u8]) -> usize {
    let settings = SettingBits {
        speed: false,
        detail: true,
        fourteen: false,
        five_and_half: false,
    };
    write_page(bitmap, settings, 4800, setting(true), out).unwrap_or(0)
}

// Where the bits of a frame that say something end.
fn bits_used(count: usize) -> usize {
    if count < 512 { 61 + count } else { 573 }
}

// In which of these bits the frames of record k differ.
fn show_change(rt: &impl Print, a: &[u8], b: &[u8], k: usize)
    requires { (k < 5) × (380 ≤ length a.now) × (380 ≤ length b.now) }
{
    let start = 76 * k + 2;
    let end = 76 * k + 76;
    let x = turned(&a[start..end]);
    let y = turned(&b[start..end]);
    named(rt, b" record ", k);
    show_differences(rt, &x, &y, bits_used(header(&x).count));
}

// In which bits the frames of the first five records differ.
fn show_changes(rt: &impl Print, a: &[u8], b: &[u8])
    requires { (380 ≤ length a.now) × (380 ≤ length b.now) }
{
    for k in 0..5 {
        show_change(rt, a, b, k);
    }
}

// A page written again, against the file that it was read from.
fn show_again(rt: &impl Print, file: [u8; 458], page: [u8; 436]) {
    let mut again = [0u8; 458];
    let n = written(&page, &mut again);
    named(rt, b"appendix written again octets ", n);
    show_changes(rt, &file, &again);
}

pub fn show_appendix(rt: &impl Print, all: &[u8]) {
    let file = whole_page(all);
    let mut page = [0u8; 436];
    match read_page(&file, setting(false), &mut page) {
        Err(_) => words(rt, b"appendix not read"),
        Ok(_) => show_again(rt, file, page),
    }
    words(rt, b"\n");
}

pub fn show_white(rt: &impl Print) {
    let by_hand = white_page();
    let mut page = [0u8; 436];
    clear(&mut page, 2);
    let mut file = [0u8; 230];
    let n = written(&page, &mut file);
    named(rt, b"white written octets ", n);
    if file == by_hand {
        words(rt, b" as by hand\n");
    } else {
        words(rt, b" differs\n");
    }
}

// Whether the file is read as the page.
fn show_read(rt: &impl Print, file: &[u8], page: &[u8]) {
    let mut read = [0u8; 868];
    match read_page(file, setting(true), &mut read) {
        Ok(_) => {
            if read.as_slice() == page {
                words(rt, b" and read back\n");
            } else {
                words(rt, b" and read otherwise\n");
            }
        }
        Err(_) => words(rt, b" and not read\n"),
    }
}

// A page of two row pairs whose first ends in a run of several words, written, against the file put together by hand.
pub fn show_edge(rt: &impl Print) {
    let run_words = [1592i16, -1, 0, 1592, -1, 0, -1, 0, -1, 0, 0];
    let mut page = [0u8; 868];
    match bitmap_of_words(&run_words, &mut page) {
        Ok(_) => words(rt, b"edge page"),
        Err(_) => words(rt, b"edge page refused"),
    }
    let by_hand = edge_page();
    let mut file = [0u8; 230];
    let n = written(&page, &mut file);
    named(rt, b" written octets ", n);
    if file == by_hand {
        words(rt, b" as by hand");
    } else {
        words(rt, b" differs");
    }
    show_read(rt, &by_hand, &page);
}
