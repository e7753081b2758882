// Data parts that have no reading, worked by hand from the printed diagram: how many first bits of each have one.
#![tactic(auto)]

use diagram::{Context, Lengths, Start};
use part::read_part;
use state::{Mixed, Solid, State};
use vector_text::fields::{show_refused, show_state};
use vector_text::show::{named, words};

// What the first bits of an octet say, from a state with lengths of 2 behind column 0.
fn show(rt: &impl Print, state: State, octet: u8, count: usize) {
    let lengths = Lengths { black: 2, white: 2 };
    let context = Context { lengths, x: 0 };
    let mut out = [0u8; 16];
    words(rt, b"stops");
    show_state(rt, state);
    named(rt, b" octet ", octet as usize);
    named(rt, b" bits ", count);
    match read_part(&[octet], count, Start { state, context }, &mut out) {
        Ok(_) => words(rt, b" read"),
        Err(refusal) => {
            show_refused(rt, refusal.reason);
            named(rt, b" bit ", refusal.bit);
        }
    }
    words(rt, b"\n");
}

// Out of BW: 0110, where 0 stays in BW; 01010, where 0101 is 010 to WB and 1 in WB; 01; 1. And 0111, which is read.
fn show_bw(rt: &impl Print) {
    let bw = State::Mixed(Mixed::BW);
    show(rt, bw, 0b0110_0000, 4);
    show(rt, bw, 0b0101_0000, 5);
    show(rt, bw, 0b0100_0000, 2);
    show(rt, bw, 0b1000_0000, 1);
    show(rt, bw, 0b0111_0000, 4);
}

// Out of WB: 1001, where 1 stays in WB; 0; and 10110, where 1011 enters BB and one bit is left of a word of two.
fn show_wb(rt: &impl Print) {
    let wb = State::Mixed(Mixed::WB);
    show(rt, wb, 0b1001_0000, 4);
    show(rt, wb, 0b0000_0000, 1);
    show(rt, wb, 0b1011_0000, 5);
}

// Each state has strings of its own, and how many is chance. In WW: one bit of a word of two; 11 and one bit of the word of three that must follow; 00110, where 00 closes the run, 1 enters WB, 1 stays there.
fn show_ww(rt: &impl Print) {
    let ww = State::Solid(Solid::WW);
    show(rt, ww, 0b0000_0000, 1);
    show(rt, ww, 0b1110_0000, 3);
    show(rt, ww, 0b0011_0000, 5);
}

pub fn show_parts(rt: &impl Print) {
    show_bw(rt);
    show_wb(rt);
    show_ww(rt);
}
