// The check of a frame: a register of twelve bits over the frame's bits up to bit 572.
#![tactic(auto)]

ghost use Rattle.std.specs.Prelude.{◌≡◌, true, false, ◌-◌, ◌≤◌, ◌<◌, MatchOption};
ghost use Rattle.octets.specs.Bits.{to_bit, bits_from};
ghost use Rattle.register.specs.Register.{step_of, register_after, Table};
ghost use Rattle.register.specs.Setting.{recorded_check, rfc_check, allowed_check, frame_check};

use octets::{bit, octet};

// In which order the check's twelve bits are sent. Low bit first is the scope paper's; high bit first is that of the RFC's frames
// (docs/CHECK-SETTING.md).
#[derive(Clone, Copy)]
pub enum BitOrder {
    LowFirst,
    HighFirst,
}

// The caller's setting: the generator's twelve low coefficients, the register's start, the first bit that it takes,
// whether reading compares at all, and the order of the check's bits. `compare` is a flag, since the C interface and the printed setting say it so.
#[derive(Clone, Copy)]
pub struct Check {
    pub generator: u64,
    pub start: u64,
    pub first: u64,
    pub compare: bool,
    pub order: BitOrder,
}

// The setting that docs/CHECK-SETTING.md records for the scope paper: the RFC's generator, low bit first, and no comparing.
pub fn recorded() -> Check
    ensures { result ≡ recorded_check }
{
    Check {
        generator: 425,
        start: 0,
        first: 0,
        compare: false,
        order: BitOrder::LowFirst,
    }
}

// The setting that the RFC's frames carry: its generator, high bit first, and compared.
pub fn rfc() -> Check
    ensures { result ≡ rfc_check }
{
    let c = recorded();
    Check {
        generator: c.generator,
        start: c.start,
        first: c.first,
        compare: true,
        order: BitOrder::HighFirst,
    }
}

// Whether a setting is allowed. `compare` is not judged here, and either order is allowed.
pub fn allowed(c: Check) -> bool
    ensures { result ≡ allowed_check c }
{
    // Early returns: in one condition with `&&` the proof has ten paths to join.
    if c.generator % 2 == 0 {
        return false;
    }
    if c.generator >= 4096 {
        return false;
    }
    if c.start >= 4096 {
        return false;
    }
    if c.first == 0 {
        return true;
    }
    c.first == 24
}

// The register after a bit.
fn step(g: u64, r: u64, b: u64) -> u64
    requires { (g < 4096) × (r < 4096) × (b < 2) }
    ensures { (result ≡ step_of g r (to_bit b)) × (result < 4096) }
{
    (r * 2 % 4096) ^ (g * ((r / 2048 + b) % 2))
}

// The register after the bits of s from `first` up to `end`, bit by bit.
fn bits(g: u64, start: u64, s: &[u8], first: usize, end: usize) -> u64
    requires { (g < 4096) × (start < 4096) × (first ≤ end) }
    ensures { (result ≡ register_after g start (bits_from s.now first (end - first))) × (result < 4096) }
{
    let mut r = start;
    for i in first..end {
        r = step(g, r, bit(s, i) as u64);
    }
    r
}

// The table for a generator: entry i is the register after the bits of the octet i, from 0.
pub fn table(g: u64) -> [u16; 256]
    requires { g < 4096 }
    ensures { Table g result }
{
    let mut t: [u16; 256] = [0; 256];
    for (i, entry) in t.iter_mut().enumerate() {
        let x = [i as u8];
        *entry = bits(g, 0, &x, 0, 8) as u16;
    }
    t
}

// A check setting that is allowed, with the table of its generator.
#[derive(Clone, Copy)]
pub struct Checker {
    pub setting: Check,
    pub table: [u16; 256],
    ghost is_allowed: { allowed_check setting ≡ true },
    ghost is_its_table: { Table setting.generator table },
}

impl Checker {
    // The checker of a setting, or none where it is not allowed.
    pub fn new(setting: Check) -> Option<Checker>
        ensures { MatchOption result (allowed_check setting ≡ false) (λ checker. checker.setting ≡ setting) }
    {
        if !allowed(setting) {
            return None;
        }
        let table = table(setting.generator);
        Some(Checker { setting, table })
    }

    // The check of a frame's octets in sent order, an octet at a time by the table.
    pub fn frame_check(&self, s: &[u8]) -> u64
        ensures { (result ≡ frame_check self.now.setting s.now) × (result < 4096) }
    {
        let c = self.setting;
        let mut r = c.start;
        for i in c.first as usize / 8..71 {
            let k = (r / 16) ^ (octet(s, i) as u64);
            r = (self.table[k as usize] as u64) ^ (r % 16 * 256);
        }
        bits(c.generator, r, s, 568, 573)
    }
}
