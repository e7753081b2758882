// Octal numbers in a text. A line that starts with # is a comment.

// The octets of a text, up to 800, and how many they are: an array, since there is no heap.
#[derive(Clone, Copy)]
pub struct Octets {
    pub octets: [u8; 800],
    pub count: usize,
}

fn stored(all: Octets, value: usize) -> Octets {
    let at = all.count;
    let mut next = all;
    if at < 800 {
        next.octets[at] = (value % 256) as u8;
        next.count = at + 1;
    }
    next
}

// Where the scan stands: behind no digit, behind the digits of a number, or in a comment.
#[derive(Clone, Copy)]
enum Scan {
    Between,
    Number(usize),
    Comment,
}

fn next(s: Scan, c: u8) -> Scan {
    match (s, c) {
        (_, b'\n') => Scan::Between,
        (Scan::Comment, _) => s,
        (_, b'#') => Scan::Comment,
        (Scan::Number(n), b'0'..=b'7') => Scan::Number(n % 32 * 8 + (c - b'0') as usize),
        (_, b'0'..=b'7') => Scan::Number((c - b'0') as usize),
        _ => Scan::Between,
    }
}

// What is stored once the scan goes from s to t: the number in hand, where it ends.
fn ended(all: Octets, s: Scan, t: Scan) -> Octets {
    match (s, t) {
        (_, Scan::Number(_)) => all,
        (Scan::Number(n), _) => stored(all, n),
        _ => all,
    }
}

pub fn octal(text: &[u8]) -> Octets {
    let mut all = Octets {
        octets: [0; 800],
        count: 0,
    };
    let mut s = Scan::Between;
    for c in text {
        let t = next(s, *c);
        all = ended(all, s, t);
        s = t;
    }
    all
}
