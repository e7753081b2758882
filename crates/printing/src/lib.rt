// How often each line of a page is printed, and where in a bitmap a printed row stands.
#![tactic(auto)]

ghost use Rattle.std.specs.Prelude.{◌≡◌, ◌+◌, ◌*◌, ◌^◌, ◌<◌, ◌≤◌, length};
ghost use Rattle.position.specs.Position.{octets_per_line, octets_in_front};
ghost use Rattle.printing.specs.Printing.{times_of, row_place};

use position::{OCTETS_IN_FRONT, OCTETS_PER_LINE};

mod page;

#[derive(Clone, Copy)]
pub enum Times {
    Once,
    Twice,
    Thrice,
}

impl From<Times> for usize {
    ghost from_gives = { λ times n. (n ≡ times_of times) × (0 < n) × (n ≤ 3) };

    fn from(times: Times) -> usize {
        match times {
            Times::Once => 1,
            Times::Twice => 2,
            Times::Thrice => 3,
        }
    }
}

// Where in a bitmap the row stands that is printed as row k.
pub fn row_place(times: Times, k: usize) -> usize
    requires { k < 2 ^ 32 }
    ensures { result ≡ row_place times k }
{
    OCTETS_IN_FRONT + OCTETS_PER_LINE * (k / usize::from(times))
}

// The lines of a bitmap, each printed so many times.
#[derive(Clone, Copy)]
pub struct PrintedPage<'a> {
    pub bitmap: &'a [u8],
    pub lines: usize,
    pub times: Times,
    ghost has_lines: { octets_in_front + octets_per_line * lines ≤ length bitmap.now },
    ghost is_no_longer: { times_of times * lines < 2 ^ 24 },
}
