// Page files that are put together by hand: the appendix's five records, the scope paper's page of two white lines, and a page with a run of
// several words that ends at the right edge.
#![tactic(auto)]

ghost use Rattle.std.specs.Prelude.{◌≡◌, true, ◌+◌, ◌*◌, ◌≤◌};
ghost use Rattle.register.specs.Setting.{allowed_check};

use basics::Cursor;
use frame::Header;
use frame_build::{data_frame, set_up_frame};
use octets::octet;
use packing::put;
use record_build::{put_end, put_record};
use register::{Check, Checker, recorded};
use settings::{Mode, Paper, Settings};
use state::{Solid, State};

// The recorded setting, with the check compared or not.
pub fn setting(compare: bool) -> Check
    ensures { allowed_check result ≡ true }
{
    let mut c = recorded();
    c.compare = compare;
    c
}

// The stored form of the five records, which stands 380 octets on, and room for one more and an end record.
fn stored(all: &[u8]) -> [u8; 458] {
    let mut file = [0u8; 458];
    for i in 0..380 {
        file[i] = octet(all, 380 + i);
    }
    file
}

// The five stored records and an end record, and room behind them.
pub fn with_end(all: &[u8]) -> [u8; 458] {
    let mut file = stored(all);
    let mut records = Cursor {
        items: &mut file,
        at: 380,
    };
    put_end(&mut records);
    file
}

// The header of a page's first data records.
fn first_header(sequence: usize, count: usize) -> Header {
    Header {
        sequence,
        count,
        x: 1725,
        black: 7,
        white: 7,
        state: State::Solid(Solid::WW),
    }
}

// Puts so many words of all ones, of 7 bits each, from a bit on. `frame_build::alternate` puts pairs of bits so, and says why it stands by itself.
fn put_ones(part: &mut [u8], at: usize, words: usize)
    requires { at + 7 * words ≤ 512 }
{
    for i in 0..words {
        put(part, at + 7 * i, 7, 127);
    }
}

// 1726 white columns: thirteen words of all ones, and one of 75.
fn white_part() -> [u8; 64] {
    let mut part = [0u8; 64];
    put_ones(&mut part, 0, 13);
    put(&mut part, 91, 7, 75);
    part
}

// A page in detail mode, eleven inch, of one image frame with so many bits.
fn page_of(part: &[u8], count: usize) -> [u8; 230] {
    let checker = Checker::new(setting(true)).unwrap();
    let mut file = [0u8; 230];
    let mut records = Cursor {
        items: &mut file,
        at: 0,
    };
    let settings = Settings {
        mode: Mode::Detail,
        paper: Paper::Eleven,
    };
    put_record(&mut records, 56, &set_up_frame(&checker, settings));
    let empty = data_frame(&checker, first_header(0, 0), &[]);
    put_record(&mut records, 57, &empty);
    let image = data_frame(&checker, first_header(1, count), part);
    put_record(&mut records, 57, &image);
    put_end(&mut records);
    file
}

// Two white lines. It is a page of its own part, as `edge_page` is.
pub fn white_page() -> [u8; 230] {
    let part = white_part();
    page_of(&part, 98)
}

// The first row pair: 1592 white columns in twelve words of all ones and one of 68, a black column, and 133 white ones, of which the move lays
// the first, a word of all ones 127 and a closing word 5. That run ends at the right edge, so that word is tested: 5 is below 32, and
// the next white word has 6 bits. The second pair: a black column, behind which the black word has 6 bits, since the first one was 0, and 1725
// white columns: the move's, 63 in six bits of ones, and 1661 in words of 7.
fn edge_part() -> [u8; 64] {
    let mut part = [0u8; 64];
    put_ones(&mut part, 0, 12);
    put(&mut part, 84, 7, 68);
    put(&mut part, 91, 1, 0);
    put(&mut part, 92, 7, 0);
    put(&mut part, 99, 1, 0);
    put_ones(&mut part, 100, 1);
    put(&mut part, 107, 7, 5);
    put(&mut part, 114, 1, 0);
    put(&mut part, 115, 6, 0);
    put(&mut part, 121, 1, 0);
    put(&mut part, 122, 6, 63);
    put_ones(&mut part, 128, 13);
    put(&mut part, 219, 7, 10);
    part
}

// Two row pairs: white, but for column 1592 of the first and column 0 of the second.
pub fn edge_page() -> [u8; 230] {
    let part = edge_part();
    page_of(&part, 226)
}

// From BB, black 2, white 6, to the right edge, 567 columns on: a closing word of 0, a move to WW, and 566 white columns.
fn last_part() -> [u8; 64] {
    let mut part = [0u8; 64];
    put(&mut part, 0, 2, 0);
    put(&mut part, 2, 1, 0);
    put(&mut part, 3, 6, 63);
    put_ones(&mut part, 9, 3);
    put(&mut part, 30, 7, 122);
    part
}

// The appendix's five records, the frame that fills the row pair, and the end record.
pub fn whole_page(all: &[u8]) -> [u8; 458] {
    let mut file = stored(all);
    let part = last_part();
    let h = Header {
        sequence: 0,
        count: 37,
        x: 1158,
        black: 2,
        white: 6,
        state: State::Solid(Solid::BB),
    };
    let checker = Checker::new(setting(true)).unwrap();
    let frame = data_frame(&checker, h, &part);
    let mut records = Cursor {
        items: &mut file,
        at: 380,
    };
    put_record(&mut records, 57, &frame);
    put_end(&mut records);
    file
}
