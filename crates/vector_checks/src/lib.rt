// The checks of the appendix's five frames, compared. By the scope paper's order of their bits the first differs. As the RFC's frames carry them
// all agree, and a frame of which any one bit from 24 to 584 is turned does not: behind the sync, all bits of a frame are guarded.
#![tactic(auto)]

ghost use Rattle.std.specs.Prelude.{◌<◌, ◌≤◌};

use reader::read_page;
use refusal::{Reason, Refusal};
use register::{Check, rfc};
use vector_files::{setting, with_end};
use vector_text::fields::show_refused;
use vector_text::show::{named, words};

// What such a file comes to under a setting.
fn show_under(rt: &impl Print, name: &[u8], file: [u8; 458], c: Check) {
    let mut out = [0u8; 436];
    words(rt, name);
    match read_page(&file, c, &mut out) {
        Ok(_) => words(rt, b" read"),
        Err(refusal) => {
            show_refused(rt, refusal.reason);
            named(rt, b" at ", refusal.record);
        }
    }
    words(rt, b"\n");
}

fn is_check_at(refusal: Refusal, k: usize) -> bool {
    refusal.reason == Reason::CheckDiffers && refusal.record == k
}

// Whether such a file is refused since the check of record k differs.
fn differs_at(file: [u8; 458], k: usize) -> bool {
    let mut out = [0u8; 436];
    match read_page(&file, rfc(), &mut out) {
        Ok(_) => false,
        Err(refusal) => is_check_at(refusal, k),
    }
}

// The file with bit i of the frame of record k turned. A stored octet has the sent one's bits in reverse order: the first sent is the low one.
fn turned(mut file: [u8; 458], k: usize, i: usize) -> [u8; 458]
    requires { (k < 5) × (i < 585) }
{
    let place = [1u8, 2, 4, 8, 16, 32, 64, 128];
    let at = 76 * k + 2 + i / 8;
    file[at] = file[at] ^ place[i % 8];
    file
}

fn one_if(b: bool) -> usize
    ensures { result ≤ 1 }
{
    if b { 1 } else { 0 }
}

// Turns each of the bits 24 to 584 of the frame of record k by itself. Shows how many they are, and of how many the file is refused by 5 at this record.
fn show_turned(rt: &impl Print, file: [u8; 458], k: usize)
    requires { k < 5 }
{
    let mut refused = 0;
    for i in 24..585 {
        refused += one_if(differs_at(turned(file, k, i), k));
    }
    named(rt, b"record ", k);
    named(rt, b" bits turned ", 585 - 24);
    named(rt, b" refused by 5 ", refused);
    words(rt, b"\n");
}

pub fn show_checks(rt: &impl Print, all: &[u8]) {
    let file = with_end(all);
    show_under(
        rt,
        b"appendix and end compared by scope",
        file,
        setting(true),
    );
    show_under(rt, b"appendix and end compared by rfc", file, rfc());
    for k in 0..5 {
        show_turned(rt, file, k);
    }
}
