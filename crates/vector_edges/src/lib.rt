// Runs of several words that end at the right edge or beside it, worked by hand from RFC 798: of a run that ends exactly at the end of a scan
// line, "the last word of the run is tested for decrement as if the previous words in the run did not exist".
#![tactic(auto)]

use diagram::{Context, Lengths, Start};
use packing::put;
use part::read_part;
use state::{Solid, State};
use vector_text::fields::{show_end, show_lengths, show_refused};
use vector_text::show::{named, words};

// From a solid state whose length is 3, the other's being 2, behind column x.
fn start(s: Solid, x: usize) -> Start {
    let lengths = match s {
        Solid::WW => Lengths { black: 2, white: 3 },
        Solid::BB => Lengths { black: 3, white: 2 },
    };
    let context = Context { lengths, x };
    Start {
        state: State::Solid(s),
        context,
    }
}

// What so many bits of a part say from there.
fn show(rt: &impl Print, s: Solid, x: usize, part: &[u8], count: usize) {
    let mut out = [0u8; 64];
    named(rt, b"edge x ", x);
    named(rt, b" bits ", count);
    match read_part(part, count, start(s, x), &mut out) {
        Ok(reading) => {
            named(rt, b" columns ", reading.columns.0);
            show_end(rt, reading.end);
            show_lengths(rt, reading.lengths);
        }
        Err(refusal) => {
            show_refused(rt, refusal.reason);
            named(rt, b" bit ", refusal.bit);
        }
    }
    words(rt, b"\n");
}

// 111 lays 7 columns, and the length is 4. 0100 closes the run with 2 more, 9 in all. 0 moves to the other solid state, whose word 00 lays none;
// 0 moves back. Then comes a word of 3, in three bits, 110, where 0100 was tested, since 2 is below 4, and in four, 1100, where it was not.
fn run_of_nine() -> [u8; 64] {
    let mut part = [0u8; 64];
    put(&mut part, 0, 3, 7);
    put(&mut part, 3, 4, 2);
    put(&mut part, 7, 1, 0);
    put(&mut part, 8, 2, 0);
    put(&mut part, 10, 1, 0);
    put(&mut part, 11, 4, 3);
    part
}

// In 14 bits there is a reading only where the run ends at column 1725, behind 1716. In 15 there is one everywhere: there 110 falls to 2 and a 0
// moves out, and elsewhere 1100 falls to 3.
fn show_nine(rt: &impl Print) {
    let part = run_of_nine();
    show(rt, Solid::WW, 1715, &part, 14);
    show(rt, Solid::WW, 1716, &part, 14);
    show(rt, Solid::WW, 1717, &part, 14);
    show(rt, Solid::WW, 1715, &part, 15);
    show(rt, Solid::WW, 1716, &part, 15);
    show(rt, Solid::WW, 1717, &part, 15);
    show(rt, Solid::WW, 1725, &part, 15);
    show(rt, Solid::BB, 1716, &part, 14);
    show(rt, Solid::WW, 1726, &part, 14);
}

// 111 0000: a closing word of 0 is tested where the word of all ones ends at column 1725, behind 1718. That word itself is not: 111 alone.
fn show_seven(rt: &impl Print) {
    let mut part = [0u8; 64];
    put(&mut part, 0, 3, 7);
    show(rt, Solid::WW, 1717, &part, 7);
    show(rt, Solid::WW, 1718, &part, 7);
    show(rt, Solid::WW, 1719, &part, 7);
    show(rt, Solid::WW, 1718, &part, 3);
}

pub fn show_parts(rt: &impl Print) {
    show_nine(rt);
    show_seven(rt);
}
