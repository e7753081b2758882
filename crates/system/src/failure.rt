// What the system says of a call that failed.
ghost use Rattle.std.specs.Prelude.{◌≤◌, length};

use std::io;
use std::io::{Cursor, Write};

// Writes a line: what failed, a colon, and the words for the error.
pub fn say_failure(to: &impl Print, what: &[u8], e: io::Error) {
    let mut text = [0u8; 320];
    let n = put_error(&mut text, e);
    let _ = to.write_all(what);
    let _ = to.write_all(b": ");
    let _ = to.write_all(&text[..n]);
    let _ = to.write_all(b"\n");
}

// Puts the words for an error at the front of a text, as far as there is room, and answers their length.
fn put_error(text: &mut [u8], e: io::Error) -> usize
    ensures { result ≤ length text.new }
{
    let mut cursor = Cursor::new(&mut *text);
    let _ = write!(cursor, "{e}");
    let n = cursor.position().min(text.len() as u64) as usize;
    match e.raw_os_error() {
        None => n,
        Some(_) => words_length(&text[..n]),
    }
}

// How long the system's words are in a text where the error's number stands behind them, in parentheses.
fn words_length(text: &[u8]) -> usize
    ensures { result ≤ length text.now }
{
    match text.iter().rposition(|x| *x == b'(') {
        Some(at) => at.saturating_sub(1),
        None => text.len(),
    }
}
