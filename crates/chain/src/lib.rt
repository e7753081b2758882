// The chain of image frames: each header is compared with the reading so far, and each data part read from its header.
#![tactic(auto)]

ghost use Rattle.std.specs.Prelude.{length, ◌≡◌, ◌<◌, ◌≤◌, ◌^◌};
ghost use Rattle.position.specs.Position.{columns_before};
ghost use Rattle.chain.specs.Chain.{blank, open_in, states_agree, x_before, agrees, is_closed, frame_judged, start_of, Chains};

use diagram::{Bits, Context, End, Lengths, Start};
use frame::Header;
use part_steps::steps;
use position::{Position, advance, last_x};
use refusal::{Fault, Reason, no_reading};
use state::{Solid, State, pels};

// The image so far: the bits read, the position of the next column to lay (an open one is not laid yet), where the reading stands, and its
// lengths. Every image frame has a bit, so there was none yet where the bits are 0.
#[derive(Clone, Copy)]
pub struct Image {
    pub bits: Bits,
    pub position: Position,
    pub end: End,
    pub lengths: Lengths,
}

// The image after a frame, and the number of the frame's steps.
#[derive(Clone, Copy)]
pub struct NextImage {
    pub image: Image,
    pub steps: usize,
}

// The image before the first image frame, which must say WW, 7, 7.
pub fn blank_image() -> Image
    ensures { result ≡ blank }
{
    Image {
        bits: Bits(0),
        position: Position { pair: 0, column: 0 },
        end: End::At(State::Solid(Solid::WW)),
        lengths: Lengths { black: 7, white: 7 },
    }
}

// The number of columns left open.
pub fn open_in(end: End) -> usize
    ensures { (result ≡ open_in end) × (result < 2) }
{
    match end {
        End::At(_) => 0,
        End::Closed(_) => 0,
        End::Open => 1,
    }
}

// Whether a header may say this state where the reading stands. An open column is mixed, and the header says which.
fn states_agree(end: End, state: State) -> bool
    ensures { result ≡ states_agree end state }
{
    match end {
        // By their pels: that a derived equality of the nested states is one of pels could not be proved.
        End::At(s) => pels(s) == pels(state),
        End::Closed(_) => false,
        End::Open => match state {
            State::Solid(_) => false,
            State::Mixed(_) => true,
        },
    }
}

// That an image has fewer than 2^60 columns stands in each clause from here on: few records keep it so, and not the image that a frame gives.

// X before the next frame: the index of the last column laid, where an open one counts as laid; 1725 before the first.
fn x_before(im: Image) -> usize
    requires { columns_before im.position < 2 ^ 60 }
    ensures { result ≡ x_before im }
{
    last_x(advance(im.position, open_in(im.end)))
}

// Whether a header agrees with the image so far. X is not compared at the first image frame.
fn agrees_with(im: Image, h: Header) -> bool
    requires { columns_before im.position < 2 ^ 60 }
    ensures { result ≡ agrees im h }
{
    if !states_agree(im.end, h.state) {
        return false;
    }
    if h.black != im.lengths.black {
        return false;
    }
    if h.white != im.lengths.white {
        return false;
    }
    if im.bits.0 == 0 {
        return true;
    }
    h.x == x_before(im)
}

fn is_closed(end: End) -> bool
    ensures { result ≡ is_closed end }
{
    match end {
        End::At(_) => false,
        End::Closed(_) => true,
        End::Open => false,
    }
}

// Judges the header of an image frame: its count and sizes, then whether a frame may follow, then whether it agrees.
fn judge(im: Image, h: Header, s: &[u8]) -> Result<(), Reason>
    requires { columns_before im.position < 2 ^ 60 }
    ensures { result ≡ frame_judged im h s.now }
{
    let lengths = Lengths {
        black: h.black,
        white: h.white,
    };
    part::judge_sizes(s, h.count, lengths)?;
    if is_closed(im.end) {
        return Err(Reason::FrameAfterClosingWord);
    }
    if agrees_with(im, h) {
        Ok(())
    } else {
        Err(Reason::HeaderDisagrees)
    }
}

// Where the data part of an image frame is read from.
fn start_of(im: Image, h: Header) -> Start
    requires { columns_before im.position < 2 ^ 60 }
    ensures { result ≡ start_of im h }
{
    let lengths = Lengths {
        black: h.black,
        white: h.white,
    };
    Start {
        state: h.state,
        context: Context {
            lengths,
            x: x_before(im),
        },
    }
}

// An image frame, from its octets in sent order: the image after it. The first entries are the frame's steps.
pub fn image_after(im: Image, h: Header, s: &[u8], entries: &mut [u16]) -> Result<NextImage, Fault>
    requires { (columns_before im.position < 2 ^ 60) × (im.bits.0 < 2 ^ 60) × (512 ≤ length entries.old) }
    ensures { Chains im h s.now result entries.new }
{
    judge(im, h, s)?;
    match steps(s, 61, h.count, start_of(im, h), entries) {
        Err(bits) => Err(no_reading(bits.0)),
        Ok(r) => {
            let reading = r.reading;
            Ok(NextImage {
                image: Image {
                    bits: Bits(im.bits.0 + reading.bits.0),
                    position: advance(im.position, open_in(im.end) + reading.columns.0),
                    end: reading.end,
                    lengths: reading.lengths,
                },
                steps: r.entries,
            })
        }
    }
}
