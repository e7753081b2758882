// Run words: each line of a page as the sizes of its runs, white positive and black negative. A run and its word.
#![tactic(auto)]

ghost use Rattle.std.specs.Prelude.{◌≡◌, cond, ◌≤◌, nat_abs};
ghost use Rattle.octets.specs.Bits.{O, I, num};
ghost use Rattle.position.specs.Position.{pels_per_line};
ghost use Rattle.words.specs.Words.{word_of, colour_of};

// The octets written, and the words that said them.
#[derive(Clone, Copy)]
pub struct Extent {
    pub octets: usize,
    pub words: usize,
}

// What stands at the front of some words: a line, and the words that it uses with the 0 that ends it; or the 0 that ends a page; or words that
// stop before a 0.
#[derive(Clone, Copy)]
pub enum Front {
    Line(usize),
    EndOfPage,
    More,
}

// The size of a word: of any word, the lowest too.
pub fn size(word: i16) -> usize
    ensures { result ≡ nat_abs word }
{
    let v = word as i32;
    if v < 0 { (0 - v) as usize } else { v as usize }
}

// The word of a run of n pels.
pub fn word(black: bool, n: usize) -> i16
    requires { n ≤ pels_per_line }
    ensures { result ≡ word_of (cond black I O) n }
{
    let v = n as i16;
    if black { 0 - v } else { v }
}

// The colour of a word's pels: 1 black, 0 white.
pub fn colour(word: i16) -> u8
    ensures { result ≡ num (colour_of word) }
{
    if word < 0 { 1 } else { 0 }
}
