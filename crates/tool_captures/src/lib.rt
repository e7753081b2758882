// Raw captures of the line: where their frames stand, and those frames as a page file.
#![tactic(auto)]

ghost use Rattle.std.specs.Prelude.{◌≤◌, length, IfSome};
ghost use Rattle.basics.specs.Cursor.{HasRoom, Writes};
ghost use Rattle.tool_captures.specs.PlaceLine.{place_line, count_line};

use basics::Cursor;
use capture_find::find_frames;
use capture_records::records_of_frames;
use register::rfc;
use std::io;
use std::rt::HostRuntime;
use text::put_named;
use tool_files::{Input, Output, not_made, write};
use tool_names::Identity;
use tool_options::{Options, compared};
use tool_says::{Coverage, complain, complain_longer, refused_at_once, shown};

// The numbers of a list whose records are made at once, two for each, and room for the records with an end record behind them.
const NUMBERS: usize = 1024;

const ROOM: usize = 38_914;

// The line of a place.
fn put_place(out: &mut Cursor<'_, u8>, octet: usize, bit: usize)
    requires { HasRoom (length (place_line octet bit)) out.old }
    ensures { Writes (place_line octet bit) out.old out.new }
{
    put_named(out, b"octet ", octet);
    put_named(out, b" bit ", bit);
    out.put_all(b"\n");
}

// Shows the line of a place; answers whether it could be written.
fn show_place(rt: &HostRuntime, octet: u64, bit: u64) -> bool {
    let mut space = [0u8; 64];
    let mut line = Cursor {
        items: &mut space,
        at: 0,
    };
    put_place(&mut line, octet as usize, bit as usize);
    shown(rt, line.since(0))
}

// The line of the number of frames.
fn put_count(out: &mut Cursor<'_, u8>, n: usize)
    requires { HasRoom (length (count_line n)) out.old }
    ensures { Writes (count_line n) out.old out.new }
{
    put_named(out, b"ok frames ", n);
    out.put_all(b"\n");
}

fn show_count(rt: &HostRuntime, n: usize) {
    let mut space = [0u8; 64];
    let mut line = Cursor {
        items: &mut space,
        at: 0,
    };
    put_count(&mut line, n);
    shown(rt, line.since(0));
}

// Shows the places of a list, and how many they are.
fn show_list(rt: &HostRuntime, list: &[u64]) {
    for place in list.chunks_exact(2) {
        if !show_place(rt, place[0], place[1]) {
            return;
        }
    }
    show_count(rt, list.len() / 2);
}

// Writes the first octets of a buffer, but for the end record.
fn write_front(to: &mut Output, out: &[u8], n: usize) -> io::Result<()> {
    if n < 2 {
        return not_made();
    }
    write(to, &out[..(n - 2).min(out.len())])
}

// Writes the records of a list of places.
fn write_records(to: &mut Output, capture: &[u8], list: &[u64]) -> io::Result<()> {
    let mut out = [0u8; ROOM];
    match records_of_frames(capture, list, &mut out) {
        Ok(n) => write_front(to, &out, n),
        Err(_) => not_made(),
    }
}

// Writes the page file of a list of places, some records at a time, and the end record.
fn write_file(to: &mut Output, capture: &[u8], list: &[u64]) -> io::Result<()> {
    for part in list.chunks(NUMBERS) {
        write_records(to, capture, part)?;
    }
    write(to, &[2, 58])
}

// Saves the frames of a list as a page file.
fn save_list(rt: &HostRuntime, capture: &[u8], list: &[u64], input: Identity, o: Options) {
    if list.len() == 0 {
        complain(rt, o.from, b"no frame is found by this check setting");
        return;
    }
    if let Some(mut out) = tool_files::made(rt, o.to, input) {
        let written = write_file(&mut out, capture, list);
        tool_files::finish(rt, out, written);
    }
}

// The frames found by the setting that frames off a machine carry, where no setting is asked for; else none.
fn found_by_rfc(capture: &[u8], list: &mut [u64], o: Options) -> usize {
    if o.check.is_some() {
        return 0;
    }
    find_frames(capture, rfc(), list).unwrap_or(0)
}

// The numbers of a list of n entries.
fn numbers(n: usize, list: &[u64]) -> usize
    ensures { result ≤ length list.now }
{
    if n < list.len() / 2 {
        2 * n
    } else {
        list.len()
    }
}

// Lists the frames of a capture, and answers how many they are, or says why not. Where no check setting is asked for and frames off a machine are
// found in it, it is not this setting that they were sent by, and the few that agree by chance are no page.
fn search(rt: &HostRuntime, capture: &[u8], list: &mut [u64], o: Options) -> Option<usize> {
    let others = found_by_rfc(capture, list, o);
    match find_frames(capture, compared(o), list) {
        Ok(n) if n < others => {
            complain(rt, o.from, b"more frames are found by --check rfc");
            None
        }
        Ok(n) => Some(n),
        Err(reason) => {
            refused_at_once(rt, reason);
            None
        }
    }
}

// Reads a capture, which must be whole, or says why it cannot be.
fn read_whole(rt: &HostRuntime, file: &mut [u8], i: usize) -> Option<Input>
    ensures { IfSome result (λ input. input.octets ≤ length file.new) }
{
    let input = tool_files::read(rt, i, file)?;
    if input.coverage == Coverage::Cut {
        complain_longer(rt, i);
        return None;
    }
    Some(input)
}

// Where the frames of a capture stand, on standard output.
pub fn frames(rt: &HostRuntime, file: &mut [u8], list: &mut [u64], o: Options) {
    let Some(input) = read_whole(rt, file, o.from) else {
        return;
    };
    if let Some(k) = search(rt, &file[..input.octets], list, o) {
        let m = numbers(k, list);
        show_list(rt, &list[..m]);
    }
}

// The frames of a capture as a page file.
pub fn extract(rt: &HostRuntime, file: &mut [u8], list: &mut [u64], o: Options) {
    let Some(input) = read_whole(rt, file, o.from) else {
        return;
    };
    if let Some(k) = search(rt, &file[..input.octets], list, o) {
        let m = numbers(k, list);
        save_list(rt, &file[..input.octets], &list[..m], input.file, o);
    }
}
