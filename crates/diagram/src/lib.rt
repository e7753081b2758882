// The printed state diagram: lengths, starts and ends. What it says is in specs/, and what follows in proofs/.
#![tactic(auto)]

ghost use Rattle.std.specs.Prelude.{◌≡◌, ◌≤◌, ◌-◌, ◌^◌};
ghost use Rattle.diagram.specs.Diagram.{ValidLengths, length_of, with_length};

use state::{Solid, State};

// The present lengths of a run's words: black in BB, white in WW.
#[derive(Clone, Copy)]
pub struct Lengths {
    pub black: usize,
    pub white: usize,
}

// What a reading goes on by, besides the state that it stands in: the lengths, and X, the index in its row pair of the last column laid.
#[derive(Clone, Copy)]
pub struct Context {
    pub lengths: Lengths,
    pub x: usize,
}

// Where a reading starts, as a frame's header says it: a state, the lengths and X.
#[derive(Clone, Copy)]
pub struct Start {
    pub state: State,
    pub context: Context,
}

// Where a reading ends: in a state where it may go on in the next frame; in a solid state after a closing word, whose move out is not
// there; or open, after a single 1 out of a solid state, whose column the next frame's header says.
#[derive(Clone, Copy)]
pub enum End {
    At(State),
    Closed(Solid),
    Open,
}

// A number of bits taken.
#[derive(Clone, Copy)]
pub struct Bits(pub usize);

// A number of columns laid.
#[derive(Clone, Copy)]
pub struct Columns(pub usize);

// The length of a solid state's words.
pub fn length(s: Solid, lengths: Lengths) -> usize
    requires { ValidLengths lengths }
    ensures { (result ≡ length_of s lengths) × (2 ≤ result) × (result ≤ 7) }
{
    match s {
        Solid::WW => lengths.white,
        Solid::BB => lengths.black,
    }
}

// The lengths with that of a solid state replaced.
pub fn with_length(s: Solid, n: usize, lengths: Lengths) -> Lengths
    ensures { result ≡ with_length s n lengths }
{
    match s {
        Solid::WW => Lengths {
            black: lengths.black,
            white: n,
        },
        Solid::BB => Lengths {
            black: n,
            white: lengths.white,
        },
    }
}

// The value of an all-ones word of n bits.
pub fn ones(n: usize) -> usize
    requires { n ≤ 7 }
    ensures { result ≡ 2 ^ n - 1 }
{
    (1 << n) - 1
}
