// The calls on run words, as C makes them.
#![tactic(auto)]

ghost use Rattle.std.specs.Prelude.{◌≡◌};
ghost use Rattle.c_words.specs.RunWords.{exported_words, exported_bitmap};

use c_refusal::refusal_code;

// Writes the run words of a bitmap (`words_write::words_of_bitmap`). The answer is the number of words.
pub fn words_of_bitmap(bitmap: &[u8], out: &mut [i16], answer: &mut [u64; 1]) -> u64
    ensures { (result, out.new, answer.new) ≡ exported_words bitmap.now out.old answer.old }
{
    match words_write::words_of_bitmap(bitmap, out) {
        Ok(n) => {
            *answer = [n as u64];
            0
        }
        Err(refusal) => refusal_code(refusal),
    }
}

// Writes the bitmap of run words (`words_read::bitmap_of_words`). The answer is the octets written and the words used.
pub fn bitmap_of_words(words: &[i16], out: &mut [u8], answer: &mut [u64; 2]) -> u64
    ensures { (result, out.new, answer.new) ≡ exported_bitmap words.now out.old answer.old }
{
    match words_read::bitmap_of_words(words, out) {
        Ok(extent) => {
            *answer = [extent.octets as u64, extent.words as u64];
            0
        }
        Err(refusal) => refusal_code(refusal),
    }
}
