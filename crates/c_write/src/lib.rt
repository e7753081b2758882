// The call that writes a page file, as C makes it.
#![tactic(auto)]

ghost use Rattle.std.specs.Prelude.{◌≡◌};
ghost use Rattle.c_write.specs.WritePage.{exported_writing};

use c_check::{check_setting_of, is_setting};
use c_refusal::refusal_code;
use refusal::Reason;

// Writes a page file (`writer::write_page`). The answer is the octets written.
pub fn write_page(
    bitmap: &[u8],
    settings: u64,
    rate: u64,
    check: &[u64; 5],
    out: &mut [u8],
    answer: &mut [u64; 1],
) -> u64
    ensures { (result, out.new, answer.new) ≡ exported_writing bitmap.now settings rate check.now out.old answer.old }
{
    if !is_setting(check) {
        return Reason::RequestNotAllowed.into();
    }
    match writer::write_numbered(
        bitmap,
        settings as usize,
        rate,
        check_setting_of(check),
        out,
    ) {
        Ok(n) => {
            *answer = [n as u64];
            0
        }
        Err(refusal) => refusal_code(refusal),
    }
}
