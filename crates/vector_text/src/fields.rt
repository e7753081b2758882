// The fields of a record.
use crate::show::{named, words};
use diagram::{End, Lengths};
use frame::Header;
use refusal::Reason;
use settings::{Mode, Paper, Settings};
use state::{State, pels};

pub fn show_refused(rt: &impl Print, reason: Reason) {
    named(rt, b" refused ", u64::from(reason) as usize);
}

pub fn show_state(rt: &impl Print, state: State) {
    let p = pels(state);
    named(rt, b" state ", (p / 2) as usize);
    named(rt, b"", (p % 2) as usize);
}

pub fn show_lengths(rt: &impl Print, lengths: Lengths) {
    named(rt, b" black ", lengths.black);
    named(rt, b" white ", lengths.white);
}

pub fn show_header(rt: &impl Print, h: Header) {
    named(rt, b" seq ", h.sequence);
    named(rt, b" count ", h.count);
    named(rt, b" x ", h.x);
    named(rt, b" black ", h.black);
    named(rt, b" white ", h.white);
    show_state(rt, h.state);
}

// The word of a mode. `show_paper` is only of the same form: it has the words of another type.
fn show_mode(rt: &impl Print, mode: Mode) {
    match mode {
        Mode::Express => words(rt, b" express"),
        Mode::Quality => words(rt, b" quality"),
        Mode::Detail => words(rt, b" detail"),
    }
}

fn show_paper(rt: &impl Print, paper: Paper) {
    match paper {
        Paper::Eleven => words(rt, b" 11"),
        Paper::Fourteen => words(rt, b" 14"),
        Paper::FiveAndHalf => words(rt, b" 5.5"),
    }
}

pub fn show_settings(rt: &impl Print, s: Settings) {
    show_mode(rt, s.mode);
    show_paper(rt, s.paper);
}

pub fn show_end(rt: &impl Print, end: End) {
    match end {
        End::At(state) => show_state(rt, state),
        End::Closed(s) => {
            show_state(rt, State::Solid(s));
            words(rt, b" closed");
        }
        End::Open => words(rt, b" open"),
    }
}
