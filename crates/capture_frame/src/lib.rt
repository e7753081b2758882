// A place in a capture, and the frame that stands there.
#![tactic(auto)]

ghost use Rattle.std.specs.Prelude.{◌≡◌, ◌+◌, ◌<◌, ◌≤◌, ◌^◌, length};
ghost use Rattle.capture.specs.Frames.{bit_of, captured_at, has_room};

use capture::Place;
use octets::{bit, octet_at};

// The octets that a frame stands in, from any bit of the first: 585 bits and up to 7 before them.
pub const FRAME_OCTETS: usize = 74;

// The place n bits further on.
pub fn further(p: Place, n: usize) -> Place
    requires { (p.bit < 8) × (p.octet < 2 ^ 63) × (n < 1024) }
    ensures { (bit_of result ≡ bit_of p + n) × (result.bit < 8) }
{
    let b = p.bit + n;
    Place {
        octet: p.octet + b / 8,
        bit: b % 8,
    }
}

// Whether a frame has room at a place: it stands in 74 octets, from whichever bit of the first.
pub fn has_room(octets: &[u8], p: Place) -> bool
    requires { p.bit < 8 }
    ensures { result ≡ has_room octets.now (bit_of p) }
{
    if octets.len() < FRAME_OCTETS {
        return false;
    }
    p.octet <= octets.len() - FRAME_OCTETS
}

// The frame at a place, as octets in sent order: eight bits at a time, and the last one, behind which the padding is 0.
pub fn frame_at(octets: &[u8], p: Place) -> [u8; 74]
    requires { (p.bit < 8) × (p.octet ≤ length octets.now) }
    ensures { result ≡ captured_at octets.now (bit_of p) }
{
    let at = p.octet;
    let from = &octets[at..];
    let mut s = [0u8; 74];
    for i in 0..73 {
        s[i] = octet_at(from, p.bit + 8 * i);
    }
    s[73] = bit(from, p.bit + 584) * 128;
    s
}
