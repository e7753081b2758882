// Run words as octets, two a word, the low one first.
#![tactic(auto)]

ghost use Rattle.std.specs.Prelude.{◌≡◌, ◌*◌, ◌/◌, ◌<◌, ◌≤◌, length};
ghost use Rattle.basics.specs.Placed.{placed};
ghost use Rattle.run_octets.specs.Octets.{word_number, octets_of_words, numbered_word, words_of_octets};

use octets::octet;
use words::size;

// A word as a number of 16 bits.
fn number(word: i16) -> usize
    ensures { (result ≡ word_number word) × (result < 65536) }
{
    if word < 0 {
        65536 - size(word)
    } else {
        size(word)
    }
}

// The word of a number of 16 bits.
fn word_of(n: usize) -> i16
    requires { n < 65536 }
    ensures { result ≡ numbered_word n }
{
    if n < 32768 {
        return n as i16;
    }
    let below = (65536 - n) as i32;
    (0 - below) as i16
}

// Writes the octets of words.
pub fn octets_of_words(words: &[i16], out: &mut [u8])
    requires { 2 * length words.now ≤ length out.old }
    ensures { out.new ≡ placed 0 (octets_of_words words.now) out.old }
{
    for (i, word) in words.iter().enumerate() {
        let v = number(*word);
        out[2 * i] = (v % 256) as u8;
        out[2 * i + 1] = (v / 256) as u8;
    }
}

// Writes the words of octets.
pub fn words_of_octets(octets: &[u8], out: &mut [i16])
    requires { length octets.now / 2 ≤ length out.old }
    ensures { out.new ≡ placed 0 (words_of_octets octets.now) out.old }
{
    for i in 0..octets.len() / 2 {
        let a = octet(octets, 2 * i) as usize;
        let b = octet(octets, 2 * i + 1) as usize;
        out[i] = word_of(a + 256 * b);
    }
}
