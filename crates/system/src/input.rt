// Octets read from standard input, or from a file that is open.
ghost use Rattle.std.specs.Prelude.{◌≡◌, ◌≤◌, length, MatchResult, IsUtf8};

use std::io::{ErrorKind, Read};
use std::os::fd::{AsRawFd, RawFd};
use std::rt::{Files, HostRuntime, Stdin};
use std::{fs, io, str};

#[derive(Drop)]
pub enum Source {
    Standard(Stdin),
    Open(fs::File),
}

impl Read for Source {
    fn read(&mut self, buf: &mut [u8]) -> io::Result<usize> {
        match self {
            Source::Standard(stdin) => stdin.read(buf),
            Source::Open(file) => file.read(buf),
        }
    }
}

impl AsRawFd for Source {
    fn as_raw_fd(&self) -> RawFd {
        match self {
            Source::Standard(stdin) => stdin.as_raw_fd(),
            Source::Open(file) => file.as_raw_fd(),
        }
    }
}

// A name as a path, which is text. A name that is no text is refused.
pub fn path_of(name: &[u8]) -> io::Result<&str>
    ensures { MatchResult result (λ path. path.now ≡ name.now) (λ e. ¬ (IsUtf8 name.now)) }
{
    match str::from_utf8(name) {
        Ok(path) => Ok(path),
        Err(_) => Err(io::Error::from(ErrorKind::InvalidFilename)),
    }
}

// Opens a file for reading.
pub fn opened(rt: &impl Files<File = fs::File>, name: &[u8]) -> io::Result<Source> {
    let file = fs::open(rt, path_of(name)?)?;
    Ok(Source::Open(file))
}

// Reads until a buffer is full, the input ends or a read fails; answered is how many octets stand at the buffer's front then.
pub fn read_full<R: Read>(reader: &mut R, buf: &mut [u8]) -> usize
    ensures { result ≤ length buf.new }
{
    let mut done = 0;
    // A while: the step varies, read by read.
    while done < buf.len() {
        let n = read_some(reader, &mut buf[done..]);
        if n == 0 {
            return done;
        }
        done += n;
    }
    done
}

// Reads once; 0 where the input ends or the read fails.
fn read_some<R: Read>(reader: &mut R, buf: &mut [u8]) -> usize
    ensures { result ≤ length buf.new }
{
    reader.read(buf).unwrap_or(0)
}
