// Writing of a page file: a bitmap's columns as units, the units as frames, the frames as records.
#![tactic(auto)]

ghost use Rattle.std.specs.Prelude.{◌≡◌, ◌<◌};
ghost use Rattle.refusal.specs.Reply.{refuses, reply_of};
ghost use Rattle.writer.specs.Call.{settings_number, write_page};

use crate::judging::judge;
use refusal::{Reason, Refusal};
use register::Check;
use writer_file::{file_octets, write_file};

pub mod judging;

// The settings of a page, as the four bits of a set-up frame. Neither bit of a pair: quality, 11 inch. Both of a pair are not allowed. Four flags,
// since `write_page` takes all sixteen, and refuses both of a pair.
#[derive(Clone, Copy)]
pub struct SettingBits {
    pub speed: bool,
    pub detail: bool,
    pub fourteen: bool,
    pub five_and_half: bool,
}

// The four bits as a number: speed 8, detail 4, 14 inch 2, 5.5 inch 1.
fn settings_number(b: SettingBits) -> usize
    ensures { result ≡ settings_number b }
{
    8 * usize::from(b.speed)
        + (4 * usize::from(b.detail) + (2 * usize::from(b.fourteen) + usize::from(b.five_and_half)))
}

// Writes a page as `write_page` does, with its settings as the number of their four bits; a number above 15 is not allowed.
pub fn write_numbered(
    bitmap: &[u8],
    settings: usize,
    rate: u64,
    c: Check,
    out: &mut [u8],
) -> Result<usize, Refusal>
    ensures { (reply_of result, out.new) ≡ write_page c settings rate bitmap.now out.old }
{
    let writing = judge(bitmap, settings, rate, c)?;
    let n = file_octets(bitmap, writing.most);
    if n > out.len() {
        return Err(Reason::OutputTooShort.into());
    }
    write_file(&mut out[..n], bitmap, writing.settings, writing.most, c);
    Ok(n)
}

// Writes the file of a bitmap's page, for a line of 2400, 4800 or 9600 bits a second and under a check setting. Refused, in this order: a check
// setting that is not allowed or does not compare, another rate; a bitmap that may not be taken; settings that are not allowed; a page whose
// last column is mixed while the one before it is solid; an output that is too short. A refusal leaves the output as it was, and success
// leaves what is behind the file.
pub fn write_page(
    bitmap: &[u8],
    settings: SettingBits,
    rate: u64,
    c: Check,
    out: &mut [u8],
) -> Result<usize, Refusal>
    ensures { (reply_of result, out.new) ≡ write_page c (settings_number settings) rate bitmap.now out.old }
{
    write_numbered(bitmap, settings_number(settings), rate, c, out)
}
