// The rows of a portable bitmap as those of a page.
ghost use Rattle.std.specs.Prelude.{length, ◌≡◌, ◌+◌, ◌*◌, ◌≤◌, ◌<◌, drop};
ghost use Rattle.basics.specs.Cursor.{HasRoom, Writes};
ghost use Rattle.basics.specs.Placed.{placed};
ghost use Rattle.position.specs.Position.{octets_per_line, octets_in_front};
ghost use Rattle.pbm.specs.Read.{row_in, page_in};

use basics::Cursor;
use bitmap::put_sizes;
use position::{OCTETS_IN_FRONT, OCTETS_PER_LINE};

// The last octet of a row.
const LAST_OCTET: usize = OCTETS_PER_LINE - 1;

// Writes a row of a file, without the two bits behind its pels.
fn put_row(out: &mut Cursor<'_, u8>, row: &[u8])
    requires { (length row.now ≡ octets_per_line) × HasRoom octets_per_line out.old }
    ensures { Writes (row_in row.now) out.old out.new }
{
    out.put_all(&row[..LAST_OCTET]);
    out.put(row[LAST_OCTET] / 4 * 4);
}

// Writes the bitmap of so many lines whose rows stand at place `from` of a file.
pub fn put_page(file: &[u8], from: usize, lines: usize, out: &mut [u8])
    requires { (from + octets_per_line * lines ≤ length file.now) × (octets_in_front + octets_per_line * lines ≤ length out.old) × (lines < 65536) }
    ensures { out.new ≡ placed 0 (page_in lines (drop from file.now)) out.old }
{
    put_sizes(out, lines);
    let mut page = Cursor {
        items: out,
        at: OCTETS_IN_FRONT,
    };
    for r in 0..lines {
        let row = from + OCTETS_PER_LINE * r;
        let end = row + OCTETS_PER_LINE;
        put_row(&mut page, &file[row..end]);
    }
}
