// Files by the arguments that name them: read whole or in part, and saved. `-` is standard input and standard output.
//
// What is saved takes its name last: it is written beside, and renamed once it is whole, so that a file of this name stays as it was where anything
// fails. What is there and is no regular file, as a device or a pipe, is written straight. The input is never written over.
#![tactic(auto)]

ghost use Rattle.std.specs.Prelude.{◌≡◌, ◌≤◌, length, IfSome, IsErrAnd};
ghost use Rattle.std.specs.IoError.{error_kind};
ghost use Rattle.std.specs.declared.io.ErrorKind.TheVariants.{InvalidData};

use bitmap::MOST_LINES;
use position::{OCTETS_IN_FRONT, OCTETS_PER_LINE};
use std::fs::{File, OpenOptions};
use std::io::{Read, Write};
use std::os::fd::AsRawFd;
use std::rt::{HostRuntime, Stdout};
use std::{fs, io};
use system::input;
use system::input::{Source, path_of, read_full};
use tool_names::{
    Identity, Name, are_same, argument, beside, fail, identity_of, is_dash, octets_of,
};
use tool_says::{Coverage, complain};

pub mod space;

// Of a file that was read how many octets, whether they are all, and which file it is.
#[derive(Clone, Copy)]
pub struct Input {
    pub octets: usize,
    pub coverage: Coverage,
    pub file: Identity,
}

// Where octets are written: to standard output; to what is there and no regular file; or beside the name that they take then.
#[derive(Drop)]
enum Target {
    Standard(Stdout),
    There(File),
    Beside(File, Name),
}

// What is written, and the name that was given.
#[derive(Drop)]
pub struct Output {
    target: Target,
    given: Name,
}

// The octets of the bitmap of so many lines, or 0 where no page has so many: no Option, since those who ask have a page.
pub fn page_octets(lines: usize, bitmap: &[u8]) -> usize
    ensures { result ≤ length bitmap.now }
{
    if lines > MOST_LINES {
        return 0;
    }
    (OCTETS_IN_FRONT + OCTETS_PER_LINE * lines).min(bitmap.len())
}

fn open_read(rt: &HostRuntime, name: Name) -> io::Result<Source> {
    input::opened(rt, octets_of(&name))
}

fn open_update(rt: &HostRuntime, name: Name) -> io::Result<File> {
    let path = path_of(octets_of(&name))?;
    OpenOptions::new().read(true).write(true).open(rt, path)
}

// Makes a file that is not there. How it is opened is all that it does not share with `open_update`, whose options stand as plainly here.
fn create(rt: &HostRuntime, name: Name) -> io::Result<File> {
    let path = path_of(octets_of(&name))?;
    OpenOptions::new()
        .write(true)
        .create_new(true)
        .open(rt, path)
}

fn remove(rt: &HostRuntime, name: Name) -> io::Result<()> {
    let path = path_of(octets_of(&name))?;
    fs::remove_file(rt, path)
}

fn rename(rt: &HostRuntime, from: Name, to: Name) -> io::Result<()> {
    fs::rename(rt, path_of(octets_of(&from))?, path_of(octets_of(&to))?)
}

// What a call answers, or says why it failed.
fn or_said<T>(rt: &HostRuntime, name: Name, answer: io::Result<T>) -> Option<T> {
    match answer {
        Ok(value) => Some(value),
        Err(e) => {
            fail(rt, name, e);
            None
        }
    }
}

// Opens a file for reading, or says why it cannot be read.
pub fn opened(rt: &HostRuntime, name: Name) -> Option<Source> {
    if is_dash(name) {
        return Some(Source::Standard(rt.stdin()));
    }
    or_said(rt, name, open_read(rt, name))
}

// Closes a file that was read as far as wanted, and answers whether it goes on, or says why it cannot be read.
pub fn goes_on(rt: &HostRuntime, mut source: Source, name: Name) -> Option<bool> {
    let mut more = [0u8; 1];
    let n = or_said(rt, name, source.read(&mut more))?;
    Some(n > 0)
}

// Which file is open for reading, or says why that is not known.
pub fn identified(rt: &HostRuntime, source: &Source, name: Name) -> Option<Identity> {
    or_said(rt, name, identity_of(rt, source.as_raw_fd()))
}

// Reads the file that argument i names as far as there is room, or says why it cannot be read.
pub fn read(rt: &HostRuntime, i: usize, buf: &mut [u8]) -> Option<Input>
    ensures { IfSome result (λ input. input.octets ≤ length buf.new) }
{
    let given = argument(rt, i);
    let mut source = opened(rt, given)?;
    let file = identified(rt, &source, given)?;
    let octets = read_full(&mut source, buf);
    let coverage = if goes_on(rt, source, given)? {
        Coverage::Cut
    } else {
        Coverage::Whole
    };
    Some(Input {
        octets,
        coverage,
        file,
    })
}

fn straight(target: Target, given: Name) -> Option<Output> {
    Some(Output { target, given })
}

// A new file beside the one that it is to become, or why there is none.
fn made_beside(rt: &HostRuntime, given: Name, to: Name) -> Option<Output> {
    let file = or_said(rt, given, create(rt, beside(rt, to)))?;
    Some(Output {
        target: Target::Beside(file, to),
        given,
    })
}

// Whether an open file is a regular one.
fn is_regular(file: &File) -> bool {
    match file.metadata() {
        Ok(known) => known.is_file(),
        Err(_) => false,
    }
}

// In the place of a file that is there and open.
fn made_over(rt: &HostRuntime, file: File, there: Option<Name>, given: Name) -> Option<Output> {
    if !is_regular(&file) {
        return straight(Target::There(file), given);
    }
    made_beside(rt, given, there.unwrap_or(given))
}

// Opens for writing what argument i names, or says why it cannot be written. `input` is the file that was read.
pub fn made(rt: &HostRuntime, i: usize, input: Identity) -> Option<Output> {
    let given = argument(rt, i);
    if is_dash(given) {
        return straight(Target::Standard(rt.stdout()), given);
    }
    match open_update(rt, given) {
        Ok(file) => made_where(rt, file, i, given, input),
        Err(e) => {
            if e.kind() == io::ErrorKind::NotFound {
                return made_beside(rt, given, given);
            }
            fail(rt, given, e);
            None
        }
    }
}

// The same of a file that is there and open.
fn made_where(
    rt: &HostRuntime,
    file: File,
    i: usize,
    given: Name,
    input: Identity,
) -> Option<Output> {
    let there = or_said(rt, given, identity_of(rt, file.as_raw_fd()))?;
    if are_same(there, input) {
        complain(rt, i, b"is the input too");
        return None;
    }
    made_over(rt, file, there.name, given)
}

// What was to be written cannot be made.
pub fn not_made() -> io::Result<()>
    ensures { IsErrAnd result (λ e. error_kind e ≡ InvalidData) }
{
    Err(io::Error::from(io::ErrorKind::InvalidData))
}

// Writes octets behind those that are written.
pub fn write(out: &mut Output, octets: &[u8]) -> io::Result<()> {
    match &mut out.target {
        Target::Standard(stdout) => Write::write_all(stdout, octets),
        Target::There(file) => file.write_all(octets),
        Target::Beside(file, _) => file.write_all(octets),
    }
}

// Puts all octets of a file that was written beside on the disk, and gives it its name.
fn take_its_name(rt: &HostRuntime, file: &File, to: Name) -> io::Result<()> {
    file.sync_all()?;
    rename(rt, beside(rt, to), to)
}

// Gives a file that was written beside its name, or says why it has none, and removes it.
fn finish_beside(rt: &HostRuntime, file: File, to: Name, given: Name, written: io::Result<()>) {
    let mut done = written;
    if written.is_ok() {
        done = take_its_name(rt, &file, to);
    }
    if let Err(e) = done {
        fail(rt, given, e);
        let _ = remove(rt, beside(rt, to));
    }
}

// Closes what was written straight.
fn finish_straight(rt: &HostRuntime, given: Name, written: io::Result<()>) {
    if let Err(e) = written {
        fail(rt, given, e);
    }
}

// Closes a file that was written. Where it could not be written whole it says why, and what was there before stays.
pub fn finish(rt: &HostRuntime, out: Output, written: io::Result<()>) {
    let Output { target, given } = out;
    match target {
        Target::Standard(_) => finish_straight(rt, given, written),
        Target::There(_) => finish_straight(rt, given, written),
        Target::Beside(file, to) => finish_beside(rt, file, to, given, written),
    }
}

// Writes a whole file.
pub fn save(rt: &HostRuntime, i: usize, input: Identity, octets: &[u8]) {
    if let Some(mut out) = made(rt, i, input) {
        let written = write(&mut out, octets);
        finish(rt, out, written);
    }
}
