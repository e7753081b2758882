// One data part: the columns that a string of bits says, by the printed state diagram, as octets 0 to 3 by their two pels.
#![tactic(auto)]

ghost use Rattle.std.specs.Prelude.{◌≡◌, ◌≤◌, ◌*◌, min, length};
ghost use Rattle.basics.specs.Placed.{placed};
ghost use Rattle.part_notes.specs.Notes.{spread};
ghost use Rattle.part.specs.Call.{length_allowed, lengths_allowed, sizes_validity, part_validity, answered, read_part, CallReads};
ghost use Rattle.refusal.specs.Reply.{reply_of, valid};
ghost use Rattle.octets.specs.Bits.{bits_from};
ghost use Rattle.diagram.specs.Diagram.{ValidContext};
ghost use Rattle.diagram.specs.Decoder.{decode};

use basics::Cursor;
use diagram::{Lengths, Start};
use part_notes::PartReading;
use part_steps::steps;
use position::LAST_COLUMN;
use refusal::{Reason, Refusal, no_reading};

// The first octets are now the columns that entries say.
fn lay(entries: &[u16], out: &mut [u8])
    requires { length (spread entries.now) ≤ length out.old }
    ensures { out.new ≡ placed 0 (spread entries.now) out.old }
{
    let mut columns = Cursor { items: out, at: 0 };
    for entry in entries {
        let e = *entry as usize;
        columns.put_times((e % 4) as u8, e / 4);
    }
}

// A length may be from 2 to 7.
fn allowed(n: usize) -> bool
    ensures { result ≡ length_allowed n }
{
    if n < 2 { false } else { n <= 7 }
}

fn both_allowed(lengths: Lengths) -> bool
    ensures { result ≡ lengths_allowed lengths }
{
    if allowed(lengths.black) {
        allowed(lengths.white)
    } else {
        false
    }
}

// The bits that may be asked for: those lent, at most 512.
fn bits_lent(octets: usize) -> usize
    ensures { result ≡ min 512 (8 * octets) }
{
    if octets < 64 { 8 * octets } else { 512 }
}

// Whether so many bits are lent, and the lengths are allowed: judged before the bits are looked at, of an image frame too.
pub fn judge_sizes(octets: &[u8], count: usize, lengths: Lengths) -> Result<(), Reason>
    ensures { result ≡ sizes_validity octets.now count lengths }
{
    if count > bits_lent(octets.len()) {
        return Err(Reason::CountTooLarge);
    }
    if both_allowed(lengths) {
        Ok(())
    } else {
        Err(Reason::SizeNotAllowed)
    }
}

// Whether a data part may be read from here: its count, its lengths, then X.
pub fn judge(octets: &[u8], count: usize, start: Start) -> Result<(), Reason>
    ensures { result ≡ part_validity octets.now count start }
{
    judge_sizes(octets, count, start.context.lengths)?;
    if start.context.x > LAST_COLUMN {
        Err(Reason::HeaderDisagrees)
    } else {
        Ok(())
    }
}

// Reads bits that may be read. A data part has no records: a refusal is at record 0.
fn read(octets: &[u8], count: usize, start: Start, out: &mut [u8]) -> Result<PartReading, Refusal>
    requires { (count ≤ 512) × ValidContext start.context }
    ensures { (reply_of result, out.new) ≡ answered count (decode start (bits_from octets.now 0 count)) out.old }
{
    let mut entries = [0u16; 512];
    match steps(octets, 0, count, start, &mut entries) {
        Err(bits) => Err(no_reading(bits.0).into()),
        Ok(r) => {
            if r.reading.columns.0 > out.len() {
                return Err(Reason::OutputTooShort.into());
            }
            lay(&entries[..r.entries], out);
            Ok(r.reading)
        }
    }
}

// Reads the first `count` bits of sent octets from a state, lengths and X, and writes the columns as octets 0 to 3, by their two pels.
// Refused, in this order: a count above 512 or above the bits lent, a length below 2 or above 7, an X above 1725, bits that have no reading
// (with the length of their longest beginning that has one), an output that has no octet for each column. A refusal leaves the output as it
// was, and a reading leaves what is behind the columns.
pub fn read_part(
    octets: &[u8],
    count: usize,
    start: Start,
    out: &mut [u8],
) -> Result<PartReading, Refusal>
    ensures answer { (reply_of result, out.new) ≡ read_part octets.now count start out.old }
    ensures readings { part_validity octets.now count start ≡ valid → CallReads start (bits_from octets.now 0 count) out.old (reply_of result, out.new) }
{
    judge(octets, count, start)?;
    read(octets, count, start, out)
}
