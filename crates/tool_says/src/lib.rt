// What the tool says: its help, text that is asked for, and on standard error why something is not done.
#![tactic(auto)]

use bitmap::MOST_LINES;
use pbm::PbmFault;
use refusal::{Reason, Refusal};
use std::rt::HostRuntime;
use system::arguments::argument;
use system::failure::say_failure;

pub mod help;

// The most octets of a file that are read, but for run words, of which any number is.
pub const MOST_READ: usize = 4_194_304;

// How much of a file was read: all of it, or its first octets, behind which it goes on.
#[derive(Clone, Copy, PartialEq, Eq)]
pub enum Coverage {
    Whole,
    Cut,
}

pub fn say(rt: &HostRuntime, text: &[u8]) {
    let _ = rt.stderr().write_all(text);
}

// Shows a text on standard output, or says why it cannot be written; answers whether it was.
pub fn shown(rt: &HostRuntime, text: &[u8]) -> bool {
    match rt.stdout().write_all(text) {
        Ok(()) => true,
        Err(e) => {
            say(rt, b"d450: ");
            say_failure(&rt.stderr(), b"-", e);
            false
        }
    }
}

// A number behind a text.
fn say_number(rt: &HostRuntime, text: &[u8], n: u64) {
    say(rt, text);
    let _ = rt.stderr().print(n);
}

// A number between two texts.
fn say_between(rt: &HostRuntime, text: &[u8], n: u64, rest: &[u8]) {
    say_number(rt, text, n);
    say(rt, rest);
}

// The name that argument i is.
fn say_name(rt: &HostRuntime, i: usize) {
    let mut path = [0u8; 4096];
    let n = argument(rt, i, &mut path);
    say(rt, &path[..n]);
}

// The name of the file that is complained of.
fn begin_complaint(rt: &HostRuntime, i: usize) {
    say(rt, b"d450: ");
    say_name(rt, i);
    say(rt, b": ");
}

// What is wrong with the file that argument i names.
pub fn complain(rt: &HostRuntime, i: usize, what: &[u8]) {
    begin_complaint(rt, i);
    say(rt, what);
    say(rt, b"\n");
}

// Of the file that argument i names more would have to be read.
pub fn complain_longer(rt: &HostRuntime, i: usize) {
    begin_complaint(rt, i);
    say_between(rt, b"is longer than ", MOST_READ as u64, b" octets\n");
}

// A reason of the list, in a few words.
fn say_reason(rt: &HostRuntime, reason: Reason) {
    match reason {
        Reason::RecordIncomplete => say(rt, b"record incomplete"),
        Reason::RecordUnknown => say(rt, b"record unknown"),
        Reason::RecordOutOfPlace => say(rt, b"record out of place"),
        Reason::SyncDiffers => say(rt, b"sync differs"),
        Reason::CheckDiffers => say(rt, b"check differs"),
        Reason::SettingsNotAllowed => say(rt, b"settings not allowed"),
        Reason::SequenceWrong => say(rt, b"sequence number wrong"),
        Reason::CountTooLarge => say(rt, b"count above 512"),
        Reason::SizeNotAllowed => say(rt, b"field length below 2 or above 7"),
        Reason::HeaderDisagrees => say(rt, b"header disagrees"),
        Reason::NoReading => say(rt, b"data part has no reading"),
        Reason::FrameAfterClosingWord => say(rt, b"image frame after a closing word"),
        Reason::PageEndsOpen => say(rt, b"page ends with an open column"),
        Reason::ColumnsNotWholePairs => say(rt, b"columns are 0 or no multiple of 1726"),
        Reason::TooManyLines => say_between(rt, b"more than ", MOST_LINES as u64, b" lines"),
        Reason::OutputTooShort => say(rt, b"output too short"),
        Reason::BitmapSizeNotAllowed => say(rt, b"bitmap's width or lines not allowed"),
        Reason::BitmapContentNotAllowed => say(rt, b"bitmap's length or trailing bits not allowed"),
        Reason::LastColumnNotEncodable => say(rt, b"last column cannot be told"),
        Reason::RequestNotAllowed => say(rt, b"check setting or rate not allowed"),
        Reason::RunWordsNotAllowed => say(rt, b"run words break their rule"),
        Reason::ListOutside => say(rt, b"list reaches outside what is lent"),
    }
}

// The bit of a refusal, which is told with 11 alone.
fn say_bit(rt: &HostRuntime, r: Refusal) {
    if r.reason == Reason::NoReading {
        say_number(rt, b" bit ", r.bit as u64);
    }
}

pub fn refused(rt: &HostRuntime, r: Refusal) {
    say_number(rt, b"refused ", r.reason.into());
    say_number(rt, b" at ", r.record as u64);
    say_bit(rt, r);
    say(rt, b": ");
    say_reason(rt, r.reason);
    say(rt, b"\n");
}

// A refusal of what has no records.
pub fn refused_at_once(rt: &HostRuntime, reason: Reason) {
    refused(rt, reason.into());
}

// The same of a page file. Where only its first octets were read, an incomplete record may go on behind them.
pub fn refused_page(rt: &HostRuntime, r: Refusal, i: usize, coverage: Coverage) {
    if coverage == Coverage::Cut && r.reason == Reason::RecordIncomplete {
        complain_longer(rt, i);
    } else {
        refused(rt, r);
    }
}

// Of the file that argument i names the height is not allowed. It shares with `complain_longer` only how a complaint begins.
fn complain_lines(rt: &HostRuntime, i: usize) {
    begin_complaint(rt, i);
    say_between(rt, b"height is odd, 0 or above ", MOST_LINES as u64, b"\n");
}

// Why a portable bitmap is not read.
pub fn fault(rt: &HostRuntime, i: usize, f: PbmFault) {
    match f {
        PbmFault::NotP4 => complain(
            rt,
            i,
            b"is no portable bitmap (P4), which is what write takes",
        ),
        PbmFault::HeaderUnreadable => complain(rt, i, b"has a header that cannot be read"),
        PbmFault::WidthNot1726 => complain(rt, i, b"width is not 1726"),
        PbmFault::LinesNotAllowed => complain_lines(rt, i),
        PbmFault::RowsMissing => complain(rt, i, b"rows are missing"),
        PbmFault::OutputTooShort => complain(rt, i, b"is too long"),
    }
}
