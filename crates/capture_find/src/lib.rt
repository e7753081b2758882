// The frames of a raw capture, counted and listed.
#![tactic(auto)]

ghost use Rattle.std.specs.Prelude.{◌≡◌, ◌*◌, ◌/◌, ◌<◌, ◌^◌, leb, length};
ghost use Rattle.basics.specs.Cursor.{HasRoom, Writes};
ghost use Rattle.capture.specs.Frames.{bit_of, frames_in};
ghost use Rattle.capture.specs.Find.{list_of, find_frames};
ghost use Rattle.refusal.specs.Reply.{reply_at_once};

use basics::Cursor;
use capture::Place;
use capture_frame::further;
use capture_search::next_frame;
use refusal::Reason;
use register::{Check, Checker};

// The beginning of a capture.
fn beginning() -> Place
    ensures { (bit_of result ≡ 0) × (result.bit < 8) }
{
    Place { octet: 0, bit: 0 }
}

// The number of frames.
fn count(octets: &[u8], checker: &Checker) -> usize
    ensures { result ≡ length (frames_in checker.now.setting octets.now) }
{
    let mut from = beginning();
    let mut n = 0;
    // A while: the search says when it ends.
    while let Some(place) = next_frame(octets, checker, from) {
        from = further(place, 585);
        n += 1;
    }
    n
}

// Lists the frames.
fn put_frames(list: &mut Cursor<'_, u64>, octets: &[u8], checker: &Checker)
    requires { HasRoom (2 * length (frames_in checker.now.setting octets.now)) list.old }
    ensures { Writes (list_of (frames_in checker.now.setting octets.now)) list.old list.new }
{
    let mut from = beginning();
    // A while: the search says when it ends.
    while let Some(place) = next_frame(octets, checker, from) {
        list.put(place.octet as u64);
        list.put(place.bit as u64);
        from = further(place, 585);
    }
}

// The most frames that so many octets have room for, side by side: their bits by 585, without a number as large as their bits.
fn most_frames(octets: usize) -> usize
    requires { octets < 2 ^ 63 }
    ensures { result ≡ 8 * octets / 585 }
{
    octets / 585 * 8 + octets % 585 * 8 / 585
}

// Whether so many numbers list all frames. Where they would list any capture of this length, the frames are not counted.
fn suffices(octets: &[u8], checker: &Checker, numbers: usize) -> bool
    ensures { result ≡ leb (2 * length (frames_in checker.now.setting octets.now)) numbers }
{
    if most_frames(octets.len()) <= numbers / 2 {
        return true;
    }
    count(octets, checker) <= numbers / 2
}

// Lists where the frames of a capture start: of each the octet, and the bit in it, 0 the high one. The capture is octets in sent order, and the list is of numbers, as C lends it.
pub fn find_frames(octets: &[u8], check: Check, list: &mut [u64]) -> Result<usize, Reason>
    ensures { (reply_at_once result, list.new) ≡ find_frames check octets.now list.old }
{
    if !check.compare {
        return Err(Reason::RequestNotAllowed);
    }
    let Some(checker) = Checker::new(check) else {
        return Err(Reason::RequestNotAllowed);
    };
    if !suffices(octets, &checker, list.len()) {
        return Err(Reason::OutputTooShort);
    }
    let mut places = Cursor { items: list, at: 0 };
    put_frames(&mut places, octets, &checker);
    Ok(places.at / 2)
}
