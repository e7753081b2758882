// Bits put into octets: numbers low or high bit first, bits copied, bits put behind those that are held. Each caller chooses the place of a bit,
// and few go on behind it: so a place stands beside the octets, and no cursor.
#![tactic(auto)]

ghost use Rattle.std.specs.Prelude.{◌≡◌, ◌<◌, ◌+◌, ◌^◌, ◌≤◌, ◌%◌};
ghost use Rattle.octets.specs.Bits.{with_bit, to_bit, set_bit, field_bits, put_bits, number_bits, with_bits, Free, bits_from};

use octets::{bit, octet, weight};
use turning::reverse;

// The octet x with its bit of weight 2^k replaced by b.
fn with_bit(x: u8, k: usize, b: u8) -> u8
    requires { (k < 8) × (b < 2) }
    ensures { result ≡ with_bit x k b }
{
    let w = weight(k);
    let h = weight(k + 1);
    let y = x as u16;
    (y / h * h + b as u16 * w + y % w) as u8
}

// Bit i is now b; where there is no bit i nothing changes.
pub fn set_bit(s: &mut [u8], i: usize, b: u8)
    requires { b < 2 }
    ensures { s.new ≡ set_bit s.old i (to_bit b) }
{
    let o = i / 8;
    if o < s.len() {
        s[o] = with_bit(s[o], 7 - i % 8, b);
    }
}

// The n bits from bit `at` on are now v, low bit first.
pub fn put(s: &mut [u8], at: usize, n: usize, v: usize)
    requires { at + n < 2 ^ 64 }
    ensures { s.new ≡ put_bits s.old at (field_bits n v) }
{
    let mut w = v;
    for i in at..at + n {
        set_bit(s, i, (w % 2) as u8);
        w = w / 2;
    }
}

// The n bits from bit `at` on are now v, high bit first.
pub fn put_number(s: &mut [u8], at: usize, n: usize, v: usize)
    requires { (n ≤ 24) × (at + 24 < 2 ^ 64) }
    ensures { s.new ≡ put_bits s.old at (number_bits n v) }
{
    for k in 0..n {
        set_bit(s, at + k, ((v >> (n - 1 - k)) % 2) as u8);
    }
}

// The octet y with the n bits before its last m replaced by those of v.
fn with_bits(y: u8, m: usize, n: usize, v: u8) -> u8
    requires { n + m ≤ 8 }
    ensures { result ≡ with_bits y m n v }
{
    let w = weight(m);
    let f = weight(n);
    let h = weight(n + m);
    let x = y as u16;
    (x / h * h + v as u16 % f * w + x % w) as u8
}

// The n bits from bit `at` on, which stand in one octet, are now v, high bit first; where there is no such octet nothing changes.
fn put_within(s: &mut [u8], at: usize, n: usize, v: u8)
    requires { at % 8 + n ≤ 8 }
    ensures { s.new ≡ put_bits s.old at (number_bits n v) }
{
    let o = at / 8;
    if o < s.len() {
        s[o] = with_bits(s[o], 8 - n - at % 8, n, v);
    }
}

// The eight bits from bit `at` on are now those of x: they stand in two octets.
fn put_octet(s: &mut [u8], at: usize, x: u8)
    requires { at + 8 < 2 ^ 64 }
    ensures { s.new ≡ put_bits s.old at (number_bits 8 x) }
{
    let r = at % 8;
    put_within(s, at, 8 - r, x >> r);
    put_within(s, at + (8 - r), r, x);
}

// The eight bits from bit `at` on are now v, low bit first: they stand in two octets, which hold nothing from there on.
pub fn append(s: &mut [u8], at: usize, v: usize)
    requires { (v < 256) × (at + 8 < 2 ^ 64) × Free s.old at }
    ensures { s.new ≡ put_bits s.old at (field_bits 8 v) }
{
    let x = reverse(v as u8) as usize;
    let i = at / 8;
    let r = at % 8;
    if i < s.len() {
        s[i] = s[i] + (x >> r) as u8;
    }
    if i + 1 < s.len() {
        s[i + 1] = ((x << (8 - r)) % 256) as u8;
    }
}

// The n bits from bit `at` on are now the first n bits of `from`: whole octets, then the bits that are left.
pub fn copy_bits(s: &mut [u8], at: usize, from: &[u8], n: usize)
    requires { at + n < 2 ^ 64 }
    ensures { s.new ≡ put_bits s.old at (bits_from from.now 0 n) }
{
    let whole = n / 8;
    for i in 0..whole {
        put_octet(s, at + 8 * i, octet(from, i));
    }
    for k in 8 * whole..n {
        set_bit(s, at + k, bit(from, k));
    }
}
