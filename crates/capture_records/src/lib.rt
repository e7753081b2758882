// The frames of a list, written as the records of a page file.
#![tactic(auto)]

ghost use Rattle.std.specs.Prelude.{length, true, ◌&&◌, List, ◌∷◌, ◌≡◌, ℕ, ◌+◌, ◌*◌, ◌/◌, ◌<◌, ◌≤◌, leb, ltb};
ghost use Rattle.basics.specs.Cursor.{HasRoom, Writes};
ghost use Rattle.frame.specs.Layout.{record_of};
ghost use Rattle.capture.specs.Frames.{bit_of, captured_at, has_room};
ghost use Rattle.capture.specs.Extract.{all_within, record_of_frame, file_of_list, records_of_frames};
ghost use Rattle.refusal.specs.Reply.{reply_at_once};

use basics::Cursor;
use capture::Place;
use capture_frame::{frame_at, has_room};
use frame::{FrameKind, turned};
use frame_parse::kind;
use record_build::{put_end, put_record};
use refusal::Reason;

// Whether an entry has a bit of an octet, and a frame has room at its place.
fn is_within(octets: &[u8], octet: u64, bit: u64) -> bool
    ensures { result ≡ (ltb bit 8 && has_room octets.now (8 * octet + bit)) }
{
    if bit >= 8 {
        return false;
    }
    has_room(
        octets,
        Place {
            octet: octet as usize,
            bit: bit as usize,
        },
    )
}

// Whether all entries of a list are such.
fn all_within(octets: &[u8], list: &[u64]) -> bool
    ensures { result ≡ all_within octets.now list.now }
{
    let n = list.len() / 2;
    for i in 0..n {
        if !is_within(octets, list[2 * i], list[2 * i + 1]) {
            return false;
        }
    }
    true
}

// Whether so many records and the end record have room in so many octets.
fn records_fit(n: usize, room: usize) -> bool
    ensures { result ≡ leb (76 * n + 2) room }
{
    if room < 2 {
        return false;
    }
    n <= (room - 2) / 76
}

// The command of a record with a frame of a kind: an octet of the record, so a number.
fn command_of(kind: FrameKind) -> u8
    ensures { (f : List ℕ) → 76 ∷ result ∷ f ≡ record_of kind f }
{
    match kind {
        FrameKind::SetUp => 56,
        FrameKind::Data => 57,
    }
}

// Writes the frame at a place as a record, of the kind that its header says.
fn put_frame(out: &mut Cursor<'_, u8>, octets: &[u8], p: Place)
    requires { (p.bit < 8) × (p.octet ≤ length octets.now) × HasRoom 76 out.old }
    ensures { Writes (record_of_frame (captured_at octets.now (bit_of p))) out.old out.new }
{
    let sent = frame_at(octets, p);
    let stored = turned(&sent);
    put_record(out, command_of(kind(&sent)), &stored);
}

// Writes the frames of a list, that of entry k as record k, and the end record behind them.
fn put_file(out: &mut Cursor<'_, u8>, octets: &[u8], list: &[u64])
    requires { (all_within octets.now list.now ≡ true) × HasRoom (76 * (length list.now / 2) + 2) out.old }
    ensures { Writes (file_of_list octets.now list.now) out.old out.new }
{
    let n = list.len() / 2;
    for k in 0..n {
        let p = Place {
            octet: list[2 * k] as usize,
            bit: list[2 * k + 1] as usize,
        };
        put_frame(out, octets, p);
    }
    put_end(out);
}

// Writes the frames of a list of places in a capture as the records of a page file, with the end record behind them. Refused, in this order: a
// list that reaches outside the capture, an output that is too short. A refusal leaves the output as it was, and success leaves what is behind
// the file. Neither sync nor check of a frame is judged.
pub fn records_of_frames(octets: &[u8], list: &[u64], out: &mut [u8]) -> Result<usize, Reason>
    ensures { (reply_at_once result, out.new) ≡ records_of_frames octets.now list.now out.old }
{
    if !all_within(octets, list) {
        return Err(Reason::ListOutside);
    }
    let n = list.len() / 2;
    if !records_fit(n, out.len()) {
        return Err(Reason::OutputTooShort);
    }
    let mut file = Cursor { items: out, at: 0 };
    put_file(&mut file, octets, list);
    Ok(file.at)
}
