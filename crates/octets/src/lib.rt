// Bits of octets, the high bit of each octet first; numbers as fields of bits, low bit first.
#![tactic(auto)]

ghost use Rattle.std.specs.Prelude.{◌≡◌, [], ◌∷◌, ◌<◌, ◌≤◌, ◌^◌, ◌+◌, get_or};
ghost use Rattle.octets.specs.Bits.{bit_num, bits_from, field_at, number_at};

use turning::reverse;

// Octet i, or 0 past the end.
pub fn octet(s: &[u8], i: usize) -> u8
    ensures { result ≡ get_or s.now i 0 }
{
    if i < s.len() { s[i] } else { 0 }
}

// Bit i as 0 or 1; 0 past the end.
pub fn bit(s: &[u8], i: usize) -> u8
    ensures { (result ≡ bit_num s.now i) × (result < 2) }
{
    (octet(s, i / 8) >> (7 - i % 8)) % 2
}

// An octet with the eight bits from bit `at` on, which stand in two octets.
pub fn octet_at(s: &[u8], at: usize) -> u8
    ensures { bits_from (result ∷ []) 0 8 ≡ bits_from s.now at 8 }
{
    let i = at / 8;
    let both = if i + 1 < s.len() {
        s[i] as usize * 256 + s[i + 1] as usize
    } else {
        octet(s, i) as usize * 256
    };
    ((both >> (8 - at % 8)) % 256) as u8
}

// Bit k of an octet, the high one first.
pub fn bit_of(x: u8, k: usize) -> u8
    requires { k < 8 }
    ensures { (result ≡ bit_num (x ∷ []) k) × (result < 2) }
{
    (x >> (7 - k)) % 2
}

// The first n bits of an octet as a field, low bit first: the low bits of the octet reversed.
pub fn first_bits(x: u8, n: usize) -> usize
    requires { n ≤ 8 }
    ensures { (result ≡ field_at (x ∷ []) 0 n) × (result < 2 ^ n) × (result < 256) }
{
    let w = weight(n) as usize;
    reverse(x) as usize % w
}

// The field of n bits at bit `at`, low bit first.
pub fn field(s: &[u8], at: usize, n: usize) -> usize
    requires { (n ≤ 12) × (at + 12 < 2 ^ 64) }
    ensures { (result ≡ field_at s.now at n) × (result < 2 ^ n) }
{
    if n <= 8 {
        return first_bits(octet_at(s, at), n);
    }
    first_bits(octet_at(s, at), 8) + 256 * first_bits(octet_at(s, at + 8), n - 8)
}

// The number of n bits at bit `at`, high bit first.
pub fn number(s: &[u8], at: usize, n: usize) -> usize
    requires { (n ≤ 30) × (at + n < 2 ^ 64) }
    ensures { (result ≡ number_at s.now at n) × (result < 2 ^ n) }
{
    let mut r: usize = 0;
    for k in 0..n {
        r = 2 * r + bit(s, at + k) as usize;
    }
    r
}

// The weight of a bit.
pub fn weight(k: usize) -> u16
    requires { k < 9 }
    ensures { result ≡ 2 ^ k }
{
    1 << k
}
