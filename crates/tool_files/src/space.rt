// The large arrays, each in a function of its own that says its length.
ghost use Rattle.std.specs.Prelude.{◌≡◌, length};

use bitmap::MOST_OCTETS;
use tool_says::MOST_READ;

// A file that is read or written: as much as is read, which is enough for the file of any page, and for a portable bitmap or a PNG of any page with
// each line three times.
pub fn file() -> [u8; MOST_READ]
    ensures { 4194304 ≡ length result }
{
    [0; MOST_READ]
}

// The bitmap of the largest page.
pub fn page() -> [u8; MOST_OCTETS] {
    [0; MOST_OCTETS]
}

// The numbers of the longest list of frames: two for each frame that has room in what is read.
const MOST_NUMBERS: usize = 2 * (8 * MOST_READ / 585);

// The list of the frames of a capture.
pub fn list() -> [u64; MOST_NUMBERS] {
    [0; MOST_NUMBERS]
}
