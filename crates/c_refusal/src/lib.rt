// A refusal as one number, as every call of the C interface returns it.
#![tactic(auto)]

ghost use Rattle.std.specs.Prelude.{◌≡◌, ◌<◌, ◌^◌};
ghost use Rattle.c_refusal.specs.Returned.{refusal_code};

use refusal::Refusal;

// A refusal's number, its bit 256 times, and its record 2^24 times.
pub fn refusal_code(refusal: Refusal) -> u64
    requires { (refusal.«record» < 2 ^ 40) × (refusal.bit < 512) }
    ensures { result ≡ refusal_code refusal }
{
    u64::from(refusal.reason) + 256 * refusal.bit as u64 + 16777216 * refusal.record as u64
}
