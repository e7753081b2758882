// The header of a portable bitmap.
ghost use Rattle.std.specs.Prelude.{◌≡◌, ◌+◌, ◌-◌, ◌*◌, ◌≤◌, min, length, drop};
ghost use Rattle.pbm.specs.Header.{blank_of, within, passed, skipped, is_digit, digits, number_in, begins, pbm_header_of};
ghost use Rattle.pbm.specs.Read.{HeaderIs};

use octets::octet;
use pbm::{PbmFault, Sizes};

// A number of the header, and the place behind its digits.
#[derive(Clone, Copy)]
struct Count {
    value: usize,
    next: usize,
}

fn blank(c: u8) -> bool
    ensures { result ≡ blank_of c }
{
    if c == 32 {
        return true;
    }
    if 9 <= c { c <= 13 } else { false }
}

// Whether what stands behind c is of a comment.
fn comment_behind(comment: bool, c: u8) -> bool
    ensures { result ≡ within comment c }
{
    if !comment {
        return c == 35;
    }
    if c == 10 {
        return false;
    }
    c != 13
}

// Whether c is passed over, as a blank or as an octet of a comment.
fn pass(comment: bool, c: u8) -> bool
    ensures { result ≡ passed comment c }
{
    if comment {
        return true;
    }
    if blank(c) { true } else { c == 35 }
}

// The place behind blanks and comments.
fn skip(file: &[u8], at: usize) -> usize
    requires { at ≤ length file.now }
    ensures { (drop result file.now ≡ skipped (drop at file.now)) × (result ≤ length file.now) }
{
    let mut comment = false;
    for i in at..file.len() {
        let c = file[i];
        if !pass(comment, c) {
            return i;
        }
        comment = comment_behind(comment, c);
    }
    file.len()
}

fn digit(c: u8) -> bool
    ensures { result ≡ is_digit c }
{
    if 48 <= c { c <= 57 } else { false }
}

// A number with one more digit, at most 65,536.
fn more(v: usize, c: u8) -> usize
    requires { (v ≤ 65536) × (48 ≤ c) }
    ensures { result ≡ min (10 * v + (c - 48)) 65536 }
{
    let n = 10 * v + (c - 48) as usize;
    if n <= 65536 { n } else { 65536 }
}

// The number at place `at`.
fn number(file: &[u8], at: usize) -> Count
    requires { at ≤ length file.now }
    ensures { (result.value ≡ number_in (drop at file.now)) × (result.next ≡ at + length (digits (drop at file.now))) × (result.next ≤ length file.now) }
{
    let mut value = 0;
    let mut i = at;
    // A while: it goes on to the first octet that is no digit.
    while digit(octet(file, i)) {
        value = more(value, octet(file, i));
        i += 1;
    }
    Count { value, next: i }
}

fn is_p4(file: &[u8]) -> bool
    ensures { result ≡ begins file.now }
{
    if octet(file, 0) != 80 {
        return false;
    }
    if octet(file, 1) != 52 {
        return false;
    }
    pass(false, octet(file, 2))
}

// What the header says, or why the file is not read.
pub fn header(file: &[u8]) -> Result<Sizes, PbmFault>
    ensures { HeaderIs file.now result (pbm_header_of file.now) }
{
    if !is_p4(file) {
        return Err(PbmFault::NotP4);
    }
    let a = skip(file, 2);
    let w = number(file, a);
    let b = skip(file, w.next);
    let h = number(file, b);
    if w.next == a {
        return Err(PbmFault::HeaderUnreadable);
    }
    if h.next == b {
        return Err(PbmFault::HeaderUnreadable);
    }
    if blank(octet(file, h.next)) {
        Ok(Sizes {
            width: w.value,
            lines: h.value,
            rows: h.next + 1,
        })
    } else {
        Err(PbmFault::HeaderUnreadable)
    }
}
