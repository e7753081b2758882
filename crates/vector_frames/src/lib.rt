// A record of the appendix: what is compared, and what is shown.
#![tactic(auto)]

ghost use Rattle.std.specs.Prelude.{◌<◌, ◌≤◌, length};

use basics::min;
use diagram::{Context, Lengths, Start};
use frame::{FrameKind, Header, Record};
use frame_build::{data_frame, set_up_frame};
use frame_parse::parse;
use part_notes::PartReading;
use position::LAST_COLUMN;
use refusal::Reason;
use register::{Checker, recorded};
use vector_text::fields::{show_end, show_header, show_lengths, show_refused, show_settings};
use vector_text::show::{named, words};

// The data part of a frame, from its first bit.
pub fn data_part(sent: &[u8]) -> [u8; 64] {
    let mut part = [0u8; 64];
    for i in 0..512 {
        packing::set_bit(&mut part, i, octets::bit(sent, 61 + i));
    }
    part
}

// What a data part says: its columns, where it ends, and the field lengths then.
fn show_reading(rt: &impl Print, reading: PartReading) {
    named(rt, b" columns ", reading.columns.0);
    show_end(rt, reading.end);
    show_lengths(rt, reading.lengths);
}

// Where the data part behind a header is read from. The first image header says 4095 for X: its frame stands behind column 1725.
pub fn start_of(h: Header) -> Start {
    let lengths = Lengths {
        black: h.black,
        white: h.white,
    };
    let context = Context {
        lengths,
        x: min(h.x, LAST_COLUMN),
    };
    Start {
        state: h.state,
        context,
    }
}

// A data part, read.
fn show_part(rt: &impl Print, h: Header, part: &[u8]) {
    let mut out = [0u8; 1726];
    match part::read_part(part, h.count, start_of(h), &mut out) {
        Ok(reading) => show_reading(rt, reading),
        Err(refusal) => show_refused(rt, refusal.reason),
    }
}

// A record put together, as it is stored.
fn together(checker: &Checker, record: Record, part: &[u8]) -> [u8; 74] {
    match record {
        Record::SetUp(s) => set_up_frame(checker, s),
        Record::Data(h) => data_frame(checker, h, part),
    }
}

// The bits before the check in which two frames differ.
pub fn show_differences(rt: &impl Print, a: &[u8], b: &[u8], to: usize) {
    for i in 0..to {
        if octets::bit(a, i) != octets::bit(b, i) {
            named(rt, b" other bit ", i);
        }
    }
}

fn show_record_kind(rt: &impl Print, record: Record, part: &[u8]) {
    match record {
        Record::SetUp(s) => {
            words(rt, b" setup");
            show_settings(rt, s);
        }
        Record::Data(h) => {
            words(rt, b" data");
            show_part(rt, h, part);
        }
    }
}

// The record written again, against the frame as it was sent.
fn show_again(rt: &impl Print, checker: &Checker, record: Record, part: &[u8], sent: &[u8]) {
    let stored = together(checker, record, part);
    let again = frame::turned(&stored);
    words(rt, b" rewritten");
    show_differences(rt, &again, sent, 573);
}

// The frame taken apart, and written again from what it says.
fn show_taken(rt: &impl Print, checker: &Checker, taken: Result<Record, Reason>, sent: &[u8]) {
    match taken {
        Ok(record) => {
            let part = data_part(sent);
            show_record_kind(rt, record, &part);
            show_again(rt, checker, record, &part, sent);
        }
        Err(reason) => show_refused(rt, reason),
    }
}

// The frame of a record, taken apart.
fn taken(checker: &Checker, command: u8, sent: &[u8]) -> Result<Record, Reason> {
    let kind = if command == 56 {
        FrameKind::SetUp
    } else {
        FrameKind::Data
    };
    parse(checker, kind, sent)
}

// Whether the stored octets, turned, are the sent ones.
fn show_turned(rt: &impl Print, sent: &[u8], stored: &[u8]) {
    let turned = frame::turned(stored);
    if turned.as_slice() == sent {
        words(rt, b" turned");
    } else {
        words(rt, b" differs");
    }
}

// The frame of a record, sent and stored: whether one is the other turned; the header's fields; and the frame taken apart with no check
// compared and written again.
fn show(rt: &impl Print, command: u8, sent: &[u8], stored: &[u8]) {
    show_turned(rt, sent, stored);
    show_header(rt, frame_parse::header(sent));
    let checker = Checker::new(recorded()).unwrap();
    show_taken(rt, &checker, taken(&checker, command, sent), sent);
    words(rt, b"\n");
}

// Record k of the text: its sent form, and its stored form 380 octets on.
pub fn show_record(rt: &impl Print, all: &[u8], k: usize)
    requires { (k < 5) × (760 ≤ length all.now) }
{
    let start = 76 * k + 2;
    let end = 76 * k + 76;
    let later = start + 380;
    let last = end + 380;
    named(rt, b"", k);
    show(rt, all[start - 1], &all[start..end], &all[later..last]);
}
