// The search for the next frame in a capture, bit by bit.
#![tactic(auto)]

ghost use Rattle.std.specs.Prelude.{◌≡◌, ◌<◌, ◌^◌};
ghost use Rattle.octets.specs.Bits.{number_at};
ghost use Rattle.capture.specs.Frames.{bit_of};
ghost use Rattle.capture_search.specs.Search.{frames_from, frames_at, IsPlace};

use capture::Place;
use capture_frame::{frame_at, further, has_room};
use frame::SYNC;
use frame_parse::check_agrees;
use octets::octet;
use register::Checker;

// The 24 bits at a place, which stand in four octets.
fn window(octets: &[u8], p: Place) -> usize
    requires { (p.bit < 8) × (p.octet < 2 ^ 63) }
    ensures { result ≡ number_at octets.now (bit_of p) 24 }
{
    let i = p.octet;
    let first = octet(octets, i) as usize * 256 + octet(octets, i + 1) as usize;
    let last = octet(octets, i + 2) as usize * 256 + octet(octets, i + 3) as usize;
    let four = first * 0x1_0000 + last;
    (four >> (8 - p.bit)) % 0x100_0000
}

// The next frame that is taken, from a place on. A start is given up at the first bit that differs from the sync's; the first eight are looked at
// together, since in noise nearly every start is given up by them.
pub fn next_frame(octets: &[u8], checker: &Checker, from: Place) -> Option<Place>
    requires { from.bit < 8 }
    ensures { (frames_from checker.now.setting octets.now (bit_of from) ≡ frames_at checker.now.setting octets.now result) × IsPlace result }
{
    let mut place = from;
    'start: while has_room(octets, place) {
        let here = place;
        let bits = window(octets, here);
        place = further(here, 1);
        if bits / 0x1_0000 != SYNC / 0x1_0000 {
            continue;
        }
        for k in 8..24usize {
            if (bits >> (23 - k)) % 2 != (SYNC >> (23 - k)) % 2 {
                continue 'start;
            }
        }
        if check_agrees(checker, &frame_at(octets, here)) {
            return Some(here);
        }
    }
    None
}
