// The calls on captures, as C makes them. Every refusal falls at record 0, so that its number is all that is returned.
#![tactic(auto)]

ghost use Rattle.std.specs.Prelude.{◌≡◌};
ghost use Rattle.c_capture.specs.Captures.{exported_finding, exported_records};

use c_check::{check_setting_of, is_setting};
use refusal::Reason;

// Lists where the frames of a capture start (`capture_find::find_frames`). The answer is the number of frames.
pub fn find_frames(octets: &[u8], check: &[u64; 5], list: &mut [u64], answer: &mut [u64; 1]) -> u64
    ensures { (result, list.new, answer.new) ≡ exported_finding octets.now check.now list.old answer.old }
{
    if !is_setting(check) {
        return Reason::RequestNotAllowed.into();
    }
    match capture_find::find_frames(octets, check_setting_of(check), list) {
        Ok(n) => {
            *answer = [n as u64];
            0
        }
        Err(reason) => reason.into(),
    }
}

// Writes the frames of a list as the records of a page file (`capture_records::records_of_frames`). The answer is the octets written.
pub fn records_of_capture(octets: &[u8], list: &[u64], out: &mut [u8], answer: &mut [u64; 1]) -> u64
    ensures { (result, out.new, answer.new) ≡ exported_records octets.now list.now out.old answer.old }
{
    match capture_records::records_of_frames(octets, list, out) {
        Ok(size) => {
            *answer = [size as u64];
            0
        }
        Err(reason) => reason.into(),
    }
}
