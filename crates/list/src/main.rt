// Lists page files as text: standard input, or each file that is named, where `-` is standard input. Checks are not compared, since no setting
// fits the RFC's frames (docs/CHECK-SETTING.md).
#![tactic(auto)]

ghost use Rattle.std.specs.Prelude.{◌≡◌, length};

use basics::min;
use listing::list;
use register::recorded;
use std::io::Read;
use std::rt::HostRuntime;
use system::arguments::{argument, argument_count};
use system::failure::say_failure;
use system::input::{Source, opened, read_full};

// Room for the longest file that is listed, and an octet more, by which a longer one is known.
fn file_room() -> [u8; 65537]
    ensures { 65537 ≡ length result }
{
    [0; 65537]
}

// Room for any listing.
fn text_room() -> [u8; 65612]
    ensures { 65612 ≡ length result }
{
    [0; 65612]
}

// The listing of octets.
fn show_listing(rt: &HostRuntime, file: &[u8]) {
    let mut text = text_room();
    if let Ok(m) = list(file, recorded(), &mut text) {
        let _ = rt.write_all(&text[..min(m, 65612)]);
    }
}

// Lists what is read, under this name where that fails. Behind what was read one more octet is tried: where that fails too, the file cannot be read,
// and what is known of it is no file.
fn list_from(rt: &HostRuntime, mut source: Source, name: &[u8]) {
    let mut file = file_room();
    let n = read_full(&mut source, &mut file);
    let mut more = [0u8; 1];
    match source.read(&mut more) {
        Ok(_) => show_listing(rt, &file[..n]),
        Err(e) => say_failure(&rt.stderr(), name, e),
    }
}

fn list_input(rt: &HostRuntime) {
    list_from(rt, Source::Standard(rt.stdin()), b"standard input");
}

fn is_dash(name: &[u8]) -> bool {
    name.len() == 1 && name[0] == b'-'
}

fn list_named(rt: &HostRuntime, name: &[u8]) {
    if is_dash(name) {
        return list_input(rt);
    }
    match opened(rt, name) {
        Ok(source) => list_from(rt, source, name),
        Err(e) => say_failure(&rt.stderr(), name, e),
    }
}

// Argument i, under its name where there are several.
fn list_argument(rt: &HostRuntime, i: usize, several: bool) {
    let mut space = [0u8; 4096];
    let n = argument(rt, i, &mut space);
    let name = &space[..n];
    if several {
        let _ = rt.write_all(name);
        let _ = rt.write_all(b":\n");
    }
    list_named(rt, name);
}

fn main(rt: HostRuntime) {
    let n = argument_count(&rt);
    if n < 2 {
        return list_input(&rt);
    }
    for i in 1..n {
        list_argument(&rt, i, n > 2);
    }
}
