// The columns of a page, as its bitmap has them.
ghost use Rattle.std.specs.Prelude.{◌≡◌, ◌+◌, ◌<◌, ◌≤◌, min, get_or, drop};
ghost use Rattle.state.specs.declared.Solid.TheVariants.{WW};
ghost use Rattle.state.specs.declared.State.TheVariants.{Solid as solid};
ghost use Rattle.state.specs.Pels.{pels_of};
ghost use Rattle.bitmap.specs.Form.{columns_of};
ghost use Rattle.units.specs.Units.{ahead};
ghost use Rattle.units.specs.Found.{Page};

use basics::min;
use bitmap_find::first_change;
use octets::bit;
use position::{
    BITS_PER_LINE, OCTETS_IN_FRONT, OCTETS_PER_LINE, OCTETS_PER_PAIR, PELS_PER_LINE,
    position_after, top_bit,
};
use state::{Solid, State, pels};

// Column `at` of a page of so many columns, by its two pels.
pub fn column(bitmap: &[u8], columns: usize, at: usize) -> u8
    requires { Page bitmap.now columns × (at < columns) }
    ensures { result ≡ pels_of (get_or (columns_of bitmap.now) at (solid WW)) }
{
    let top = top_bit(position_after(at));
    2 * bit(bitmap, top) + bit(bitmap, top + BITS_PER_LINE)
}

// How many columns of a solid state come from column `at` on; `most` where there are more. Row pair by row pair.
pub fn run_ahead(bitmap: &[u8], columns: usize, at: usize, most: usize, s: Solid) -> usize
    requires { Page bitmap.now columns × (at ≤ columns) × (most < 256) }
    ensures { (result ≡ min most (ahead s (drop at (columns_of bitmap.now)))) × (at + result ≤ columns) }
{
    let state = pels(State::Solid(s));
    let end = min(at + most, columns);
    let mut i = at;
    // A while: the step varies, up to the end of a row pair.
    while i < end {
        let x = i % PELS_PER_LINE;
        let to = min(x + (end - i), PELS_PER_LINE);
        let top = OCTETS_IN_FRONT + OCTETS_PER_PAIR * (i / PELS_PER_LINE);
        let y = first_change(bitmap, top, top + OCTETS_PER_LINE, x, to, state);
        i += y - x;
        if y < to {
            return i - at;
        }
    }
    i - at
}
