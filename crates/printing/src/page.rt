// The rows of a page as they are printed.
ghost use Rattle.std.specs.Prelude.{◌≡◌, [], ◌*◌, ◌<◌, length, get_or};
ghost use Rattle.position.specs.Position.{octets_per_line};
ghost use Rattle.printing.specs.Printing.{times_of};
ghost use Rattle.printing.specs.Page.{rows_of};

use crate::{PrintedPage, row_place};
use position::OCTETS_PER_LINE;

impl<'a> PrintedPage<'a> {
    // How many rows are printed.
    pub fn rows(&self) -> usize
        ensures { result ≡ times_of self.now.times * self.now.lines }
    {
        usize::from(self.times) * self.lines
    }

    // The row that is printed as row k.
    pub fn row(&self, k: usize) -> &'a [u8]
        requires { k < times_of self.now.times * self.now.lines }
        ensures { (result.now ≡ get_or (rows_of self.now) k []) × (length result.now ≡ octets_per_line) }
    {
        let from = row_place(self.times, k);
        let end = from + OCTETS_PER_LINE;
        &self.bitmap[from..end]
    }
}
