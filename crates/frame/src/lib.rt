// A frame of 585 bits: sync 24, header 37, data 512, check 12. It is sent as 74 octets, the last 7 bits of which are
// padding, and stored as those octets turned.
#![tactic(auto)]

ghost use Rattle.std.specs.Prelude.{◌≡◌};
ghost use Rattle.turning.specs.Turned.{turned_from};

use octets::octet;
use settings::Settings;
use state::State;
use turning::turning;

// The first 24 bits of every frame, as a number.
pub const SYNC: usize = 0x6279D8;

// The header of a data frame. X is the index of the last column laid before it.
#[derive(Clone, Copy)]
pub struct Header {
    pub sequence: usize,
    pub count: usize,
    pub x: usize,
    pub black: usize,
    pub white: usize,
    pub state: State,
}

// The kind of a frame: that of a set-up record, or that of a data record.
#[derive(Clone, Copy)]
pub enum FrameKind {
    SetUp,
    Data,
}

// A record of a file: a set-up with its mode and paper, or a data header.
#[derive(Clone, Copy)]
pub enum Record {
    SetUp(Settings),
    Data(Header),
}

// The first 74 octets, each turned: a stored frame as it was sent, and a sent one as it is stored. Octets past the end count as 0.
pub fn turned(frame: &[u8]) -> [u8; 74]
    ensures { result ≡ turned_from frame.now 0 74 }
{
    let t = turning();
    let mut s = [0u8; 74];
    for (i, x) in s.iter_mut().enumerate() {
        *x = t[octet(frame, i) as usize];
    }
    s
}
