// Names of files: that of an argument, the true one of an open file, and one beside a file.
#![tactic(auto)]

ghost use Rattle.std.specs.Prelude.{◌≤◌, length, ◌≡◌, take};

use std::os::fd::RawFd;
use std::os::unix::fs::MetadataExt;
use std::rt::HostRuntime;
use std::{fs, io, process};
use system::arguments;
use system::failure::say_failure;
use system::input::path_of;
use tool_says::say;

// A name is the first octets, so many, of these.
#[derive(Clone, Copy)]
pub struct Name {
    octets: [u8; 4096],
    length: usize,
    ghost fits: { length ≤ 4096 },
}

// The octets of a name.
pub fn octets_of(name: &Name) -> &[u8]
    ensures { result.now ≡ take name.now.length name.now.octets }
{
    &name.octets[..name.length]
}

// The name that argument i is.
pub fn argument(rt: &HostRuntime, i: usize) -> Name {
    let mut octets = [0u8; 4096];
    let length = arguments::argument(rt, i, &mut octets);
    Name { octets, length }
}

// Whether a name is that of standard input and standard output. The program list, which has no Name, asks it too: both are a comparison with one
// octet, and a function for it below them would be no plainer.
pub fn is_dash(name: Name) -> bool {
    octets_of(&name) == b"-".as_slice()
}

// What the system says of a file by this name.
pub fn fail(rt: &HostRuntime, name: Name, e: io::Error) {
    say(rt, b"d450: ");
    say_failure(&rt.stderr(), octets_of(&name), e);
}

// Whether two names are the same.
fn are_same_names(a: Name, b: Name) -> bool {
    octets_of(&a) == octets_of(&b)
}

// Puts octets at a place of a name, as far as there is room, and answers the place behind them. A cursor would ask for room.
fn put(octets: &mut [u8], at: usize, text: &[u8]) -> usize
    ensures { result ≤ length octets.new }
{
    let from = at.min(octets.len());
    let room = &mut octets[from..];
    let n = text.len().min(room.len());
    room[..n].copy_from_slice(&text[..n]);
    from + n
}

// Puts a decimal number at a place of a name.
fn put_number(octets: &mut [u8], at: usize, n: u64) -> usize
    ensures { result ≤ length octets.new }
{
    let mut digits = [0u8; 20];
    let mut rest = n;
    for first in (0..20).rev() {
        digits[first] = b'0' + (rest % 10) as u8;
        rest /= 10;
        if rest == 0 {
            return put(octets, at, &digits[first..]);
        }
    }
    put(octets, at, &digits)
}

// A number of the system's, which is never below 0.
fn natural(n: i32) -> u64 {
    u64::try_from(n).unwrap_or(0)
}

// The name by which the system lets an open file be asked for.
fn descriptor(fd: RawFd) -> Name {
    let mut octets = [0u8; 4096];
    let at = put(&mut octets, 0, b"/proc/self/fd/");
    let length = put_number(&mut octets, at, natural(fd));
    Name { octets, length }
}

// A file's device, and its number there, which is above 0.
#[derive(Clone, Copy, PartialEq, Eq)]
struct Place {
    device: u64,
    number: u64,
}

// Which file an open one is: its true name, whatever links led to it; and its place, which tells it too where its true name is no text. Neither
// where the system does not say.
#[derive(Clone, Copy)]
pub struct Identity {
    pub name: Option<Name>,
    place: Option<Place>,
}

// The name that a text is, or none where it is empty.
fn named(text: &[u8]) -> Option<Name> {
    if text.is_empty() {
        return None;
    }
    let mut octets = [0u8; 4096];
    let length = put(&mut octets, 0, text);
    Some(Name { octets, length })
}

// The true name of an open file, whatever links led to it, or none. It fails where there is no memory for it.
pub fn true_name(rt: &HostRuntime, fd: RawFd) -> io::Result<Option<Name>> {
    let open = descriptor(fd);
    let path = path_of(octets_of(&open))?;
    match fs::read_link(rt, path) {
        Ok(name) => Ok(named(name.as_str().as_bytes())),
        Err(e) if e.kind() == io::ErrorKind::OutOfMemory => Err(e),
        Err(_) => Ok(None),
    }
}

// Which file is open.
pub fn identity_of(rt: &HostRuntime, fd: RawFd) -> io::Result<Identity> {
    let name = true_name(rt, fd)?;
    let open = descriptor(fd);
    let path = path_of(octets_of(&open))?;
    let place = match fs::metadata(rt, path) {
        Ok(known) if known.ino() > 0 => Some(Place {
            device: known.dev(),
            number: known.ino(),
        }),
        _ => None,
    };
    Ok(Identity { name, place })
}

// Whether two open files are one. What is not known of both says nothing.
pub fn are_same(a: Identity, b: Identity) -> bool {
    if let (Some(x), Some(y)) = (a.name, b.name) {
        return are_same_names(x, y);
    }
    match (a.place, b.place) {
        (Some(x), Some(y)) => x == y,
        _ => false,
    }
}

// Where the last part of a name begins.
fn folder_length(name: &[u8]) -> usize
    ensures { result ≤ length name.now }
{
    match name.iter().rposition(|x| *x == b'/') {
        Some(at) => at + 1,
        None => 0,
    }
}

// A name in the same folder that no other run of the tool uses at this time.
pub fn beside(rt: &HostRuntime, name: Name) -> Name {
    let given = octets_of(&name);
    let mut octets = [0u8; 4096];
    let at = put(&mut octets, 0, &given[..folder_length(given)]);
    let behind = put(&mut octets, at, b".d450-");
    let length = put_number(&mut octets, behind, process::id(rt.process()) as u64);
    Name { octets, length }
}
