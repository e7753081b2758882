// A frame put together: the octets that are stored.
#![tactic(auto)]

ghost use Rattle.std.specs.Prelude.{◌≡◌, ◌+◌, ◌*◌, ◌<◌, ◌^◌, replicate};
ghost use Rattle.octets.specs.Bits.{put_bits, bits_from};
ghost use Rattle.frame.specs.Layout.{sync, header_bits, alternating, set_up_bits, check_bits, closed_frame, set_up_front, stored_frame, data_front};

use frame::{Header, SYNC, turned};
use packing::{copy_bits, put, put_number};
use register::{BitOrder, Checker};
use settings::Settings;
use state::pels;

fn put_header(s: &mut [u8], h: Header)
    ensures { s.new ≡ put_bits s.old 24 (header_bits h) }
{
    put_number(s, 24, 2, h.sequence);
    put_number(s, 26, 5, 0b10000);
    put(s, 31, 10, h.count);
    put(s, 41, 12, h.x);
    put(s, 53, 3, h.black);
    put(s, 56, 3, h.white);
    put_number(s, 59, 2, pels(h.state) as usize);
}

// n pairs of the bits 1 and 0. A function that puts any field n times, as `vector_files` puts words, would need a definition of such fields and a
// law that joins it to `alternating`.
fn alternate(s: &mut [u8], at: usize, n: usize)
    requires { at + 2 * n < 2 ^ 63 }
    ensures { s.new ≡ put_bits s.old at (alternating n) }
{
    for i in 0..n {
        put(s, at + 2 * i, 2, 1);
    }
}

fn put_set_up(s: &mut [u8], settings: Settings)
    ensures { s.new ≡ put_bits s.old 24 (set_up_bits settings) }
{
    put_number(s, 24, 7, 0b0000101);
    put(s, 31, 30, 0x3FFF_FFFF);
    put_number(s, 61, 5, settings.into());
    put_number(s, 66, 7, 0b1000000);
    put(s, 73, 20, 0);
    alternate(s, 93, 240);
}

// Puts the check's bits behind bit 572, in an order.
fn put_check(s: &mut [u8], order: BitOrder, check: usize)
    ensures { s.new ≡ put_bits s.old 573 (check_bits order check) }
{
    match order {
        BitOrder::LowFirst => put(s, 573, 12, check),
        BitOrder::HighFirst => put_number(s, 573, 12, check),
    }
}

// The frame with its check, as it is stored.
fn closed(checker: &Checker, front: [u8; 74]) -> [u8; 74]
    ensures { result ≡ closed_frame checker.now.setting front }
{
    let mut s = front;
    let check = checker.frame_check(&s) as usize;
    put_check(&mut s, checker.setting.order, check);
    turned(&s)
}

// A frame's octets with its sync, and 0 behind it.
fn begun() -> [u8; 74]
    ensures { result ≡ put_bits (replicate 74 0) 0 sync }
{
    let mut s = [0u8; 74];
    put_number(&mut s, 0, 24, SYNC);
    s
}

// The set-up frame with these settings.
pub fn set_up_frame(checker: &Checker, settings: Settings) -> [u8; 74]
    ensures { result ≡ stored_frame checker.now.setting (set_up_front settings) }
{
    let mut s = begun();
    put_set_up(&mut s, settings);
    closed(checker, s)
}

// The data frame with this header and the first 512 bits of `data`, which are 0 past its end.
pub fn data_frame(checker: &Checker, h: Header, data: &[u8]) -> [u8; 74]
    ensures { result ≡ stored_frame checker.now.setting (data_front h (bits_from «data».now 0 512)) }
{
    let mut s = begun();
    put_header(&mut s, h);
    copy_bits(&mut s, 61, data, 512);
    closed(checker, s)
}
