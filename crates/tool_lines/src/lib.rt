// The lines of run words drawn one behind the other on a page.
#![tactic(auto)]

ghost use Rattle.std.specs.Prelude.{◌≡◌, ◌≤◌, length};
ghost use Rattle.words.specs.Lines.{front_reply, front_line};
ghost use Rattle.refusal.specs.Reply.{reply_of};

use basics::min;
use bitmap::MOST_LINES;
use position::{OCTETS_IN_FRONT, OCTETS_PER_LINE};
use refusal::Refusal;
use words::Front;
use words_read::line_of_words;

// The lines drawn, as far as they matter; the words held that belong to no line yet; and why no more lines are drawn.
#[derive(Clone, Copy)]
pub struct Drawing {
    pub lines: usize,
    pub held: usize,
    pub stop: Stop,
}

#[derive(Clone, Copy)]
pub enum Stop {
    More,
    EndOfPage,
    Broken,
}

// Draws the line at the front of words as the next behind so many lines. A line behind the largest page's last is judged all the same.
fn draw_next(words: &[i16], lines: usize, bitmap: &mut [u8]) -> Result<Front, Refusal>
    requires { lines ≤ 65536 }
    ensures { reply_of result ≡ front_reply (front_line words.now) }
{
    let at = OCTETS_IN_FRONT + OCTETS_PER_LINE * lines;
    if at + OCTETS_PER_LINE <= bitmap.len() {
        return line_of_words(words, &mut bitmap[at..]);
    }
    let mut row = [0u8; OCTETS_PER_LINE];
    line_of_words(words, &mut row)
}

// Draws the lines of words behind so many lines. Lines are counted up to one more than a page may have.
pub fn draw_lines(words: &[i16], before: usize, bitmap: &mut [u8]) -> Drawing
    requires { before ≤ 65536 }
    ensures { (result.lines ≤ 65536) × (result.held ≤ length words.now) }
{
    let mut lines = before;
    let mut at = 0;
    // A loop: the step varies, line by line.
    loop {
        match draw_next(&words[at..], lines, bitmap) {
            Ok(Front::Line(n)) => {
                at += n;
                lines = min(lines + 1, MOST_LINES + 1);
            }
            Ok(Front::EndOfPage) => return Drawing {
                lines,
                held: 0,
                stop: Stop::EndOfPage,
            },
            Ok(Front::More) => return Drawing {
                lines,
                held: words.len() - at,
                stop: Stop::More,
            },
            Err(_) => return Drawing {
                lines,
                held: 0,
                stop: Stop::Broken,
            },
        }
    }
}
