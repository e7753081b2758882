// A portable bitmap read as a bitmap.
#![tactic(auto)]

ghost use Rattle.std.specs.Prelude.{◌≡◌};
ghost use Rattle.pbm.specs.Read.{bitmap_of_pbm};

use crate::header::header;
use crate::rows::put_page;
use pbm::PbmFault;
use position::{OCTETS_IN_FRONT, OCTETS_PER_LINE, PELS_PER_LINE};

mod header;
mod rows;

// Reads a portable bitmap of 1726 pels a line as a bitmap; the two bits behind each line's pels are cleared, and octets behind the rows are
// not read. A refusal leaves the output as it was, and success leaves what is behind the bitmap.
pub fn bitmap_of_pbm(file: &[u8], out: &mut [u8]) -> Result<usize, PbmFault>
    ensures { (result, out.new) ≡ bitmap_of_pbm file.now out.old }
{
    let s = header(file)?;
    if s.width != PELS_PER_LINE {
        return Err(PbmFault::WidthNot1726);
    }
    if !bitmap::lines_allowed(s.lines) {
        return Err(PbmFault::LinesNotAllowed);
    }
    if file.len() - s.rows < OCTETS_PER_LINE * s.lines {
        return Err(PbmFault::RowsMissing);
    }
    let n = OCTETS_IN_FRONT + OCTETS_PER_LINE * s.lines;
    if n > out.len() {
        return Err(PbmFault::OutputTooShort);
    }
    put_page(file, s.rows, s.lines, out);
    Ok(n)
}
