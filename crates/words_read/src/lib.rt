// The bitmap of run words, and the line at their front.
#![tactic(auto)]

ghost use Rattle.std.specs.Prelude.{◌≡◌, ◌≤◌, ◌+◌, ◌-◌, ◌*◌, ◌<◌, ◌^◌, nat_abs, pos, length, get_or, take};
ghost use Rattle.position.specs.Position.{pels_per_line, octets_per_line, octets_in_front};
ghost use Rattle.refusal.specs.Reply.{reply_of};
ghost use Rattle.words.specs.Calls.{bitmap_of_words, page_of};
ghost use Rattle.words_read.specs.Scan.{ending, going, next_of, front_cut, counted, moved, ends_page};
ghost use Rattle.words.specs.Words.{lines_of_words, colour_of};
ghost use Rattle.words.specs.Lines.{line_of_words, front_line, drawn_line};
ghost use Rattle.octets.specs.Bits.{num};
ghost use Rattle.bitmap.specs.Laid.{SetIfBlack};
ghost use Rattle.bitmap.specs.Validity.{most_lines};
ghost use Rattle.words.specs.declared.Front.TheVariants.{Line as a_line};

use bitmap_lay::{clear, set_if_black};
use position::{BITS_PER_LINE, OCTETS_IN_FRONT, OCTETS_PER_LINE, PELS_PER_LINE};
use refusal::{Reason, Refusal};
use words::{Extent, Front, colour, size};

// The bit of a bitmap that the first row begins at.
const FIRST_BIT: usize = 8 * OCTETS_IN_FRONT;

// A page of words: its lines, and its words with all zeros.
#[derive(Clone, Copy)]
pub struct Count {
    pub lines: usize,
    pub words: usize,
}

// The colour of a word's pels.
#[derive(Clone, Copy, PartialEq, Eq)]
pub enum Colour {
    White,
    Black,
}

// A line as far as its words are read: their pels, and the colour of the last word; none before the first.
#[derive(Clone, Copy)]
pub struct Line {
    pub pels: usize,
    pub last: Option<Colour>,
}

// What a word comes to in a line.
#[derive(Clone, Copy)]
pub enum WordEffect {
    Run(Line),
    EndOfLine,
    EndOfPage,
}

// Where the next pel goes: the bit that its row begins at, and its own.
#[derive(Clone, Copy)]
pub struct Pen {
    pub row: usize,
    pub at: usize,
}

// Writes the bitmap of run words; words behind the page's last 0 are not read. Refused, in this order: words that break their rule, a
// number of lines that is not allowed, an output that is too short. A refusal leaves the output as it was, and success leaves what is
// behind the bitmap.
pub fn bitmap_of_words(words: &[i16], out: &mut [u8]) -> Result<Extent, Refusal>
    ensures { (reply_of result, out.new) ≡ bitmap_of_words words.now out.old }
{
    let Some(page) = judge(words) else {
        return Err(Reason::RunWordsNotAllowed.into());
    };
    if !bitmap::lines_allowed(page.lines) {
        return Err(Reason::BitmapSizeNotAllowed.into());
    }
    let octets = OCTETS_IN_FRONT + OCTETS_PER_LINE * page.lines;
    if octets > out.len() {
        return Err(Reason::OutputTooShort.into());
    }
    draw(words, page, &mut out[..octets]);
    Ok(Extent {
        octets,
        words: page.words,
    })
}

// Draws the line at the front of run words, as its octets in a bitmap, and answers the words used. Words behind the line's 0 are not read. A 0
// at the front is the page's end. Refused, in this order: words that break the rule of a line, an output that is too short. All but a line
// leaves the output as it was, and a line leaves what is behind its octets.
pub fn line_of_words(words: &[i16], out: &mut [u8]) -> Result<Front, Refusal>
    ensures { (reply_of result, out.new) ≡ line_of_words words.now out.old }
{
    match judge_line(words) {
        None => Err(Reason::RunWordsNotAllowed.into()),
        Some(Front::EndOfPage) => Ok(Front::EndOfPage),
        Some(Front::More) => Ok(Front::More),
        Some(Front::Line(used)) => {
            if out.len() < OCTETS_PER_LINE {
                return Err(Reason::OutputTooShort.into());
            }
            draw_line(words, used, &mut out[..OCTETS_PER_LINE]);
            Ok(Front::Line(used))
        }
    }
}

// What a 0 comes to, or none where it is not allowed.
fn take_end(line: Line) -> Option<WordEffect>
    ensures { result ≡ ending line }
{
    let Some(last) = line.last else {
        return Some(WordEffect::EndOfPage);
    };
    match last {
        Colour::Black => Some(WordEffect::EndOfLine),
        Colour::White => {
            if line.pels == 1 {
                Some(WordEffect::EndOfLine)
            } else {
                None
            }
        }
    }
}

fn take_run(line: Line, colour: Colour, pels: usize) -> Option<WordEffect>
    requires { (line.pels ≤ pels_per_line) × (pels ≤ 32768) }
    ensures { result ≡ going line colour pels }
{
    if line.last == Some(colour) {
        return None;
    }
    let total = line.pels + pels;
    if total <= PELS_PER_LINE {
        Some(WordEffect::Run(Line {
            pels: total,
            last: Some(colour),
        }))
    } else {
        None
    }
}

// What a word comes to, or none where it breaks the rule.
fn take_word(line: Line, word: i16) -> Option<WordEffect>
    requires { line.pels ≤ pels_per_line }
    ensures { result ≡ next_of line word }
{
    if word == 0 {
        return take_end(line);
    }
    if word < 0 {
        take_run(line, Colour::Black, size(word))
    } else {
        take_run(line, Colour::White, size(word))
    }
}

// Judges words up to the page's last 0: its lines and words, or none where they break the rule.
fn judge(words: &[i16]) -> Option<Count>
    ensures { result ≡ counted (lines_of_words words.now) }
{
    let mut line = Line {
        pels: 0,
        last: None,
    };
    let mut lines = 0;
    for (i, word) in words.iter().enumerate() {
        match take_word(line, *word)? {
            WordEffect::EndOfPage => return Some(Count {
                lines,
                words: i + 1,
            }),
            WordEffect::EndOfLine => {
                lines += 1;
                line = Line {
                    pels: 0,
                    last: None,
                };
            }
            WordEffect::Run(l) => line = l,
        }
    }
    None
}

// Judges words up to the end of the line at their front; none where they break the rule of a line.
fn judge_line(words: &[i16]) -> Option<Front>
    ensures { result ≡ front_cut (front_line words.now) }
{
    let mut line = Line {
        pels: 0,
        last: None,
    };
    for (i, word) in words.iter().enumerate() {
        match take_word(line, *word)? {
            WordEffect::EndOfPage => return Some(Front::EndOfPage),
            WordEffect::EndOfLine => return Some(Front::Line(i + 1)),
            WordEffect::Run(l) => line = l,
        }
    }
    Some(Front::More)
}

// Draws the pels of a word from bit `at` on, and answers the bit behind them: a place of bits, which a cursor over octets does not have.
fn draw_run(out: &mut [u8], at: usize, word: i16) -> usize
    requires { (at + nat_abs word ≤ 8 * length out.old) × (at + nat_abs word < 2 ^ 60) }
    ensures { (result ≡ at + nat_abs word) × SetIfBlack (num (colour_of word)) at (at + nat_abs word) out.old out.new }
{
    let end = at + size(word);
    set_if_black(out, colour(word), at, end);
    end
}

// Draws the line at the front of words, which uses so many of them, its 0 too. All are lent, since the line is told by what stands at their front.
fn draw_line(words: &[i16], used: usize, out: &mut [u8])
    requires { (front_cut (front_line words.now) ≡ Some (a_line used)) × (length out.old ≡ octets_per_line) }
    ensures { out.new ≡ drawn_line (take (used - 1) words.now) }
{
    out.fill(0);
    let mut at = 0;
    for word in &words[..used - 1] {
        at = draw_run(out, at, *word);
    }
}

// Draws a word: a 0 takes the pen to the next row.
fn draw_word(out: &mut [u8], pen: Pen, word: i16) -> Pen
    requires { (pen.at + nat_abs word ≤ 8 * length out.old) × (pen.at + nat_abs word < 2 ^ 60) × (pen.row < 2 ^ 60) }
    ensures { (result ≡ moved pen word) × SetIfBlack (num (colour_of word)) pen.at (pen.at + nat_abs word) out.old out.new }
{
    if word == 0 {
        let row = pen.row + BITS_PER_LINE;
        return Pen { row, at: row };
    }
    Pen {
        row: pen.row,
        at: draw_run(out, pen.at, word),
    }
}

// Whether the page ends at word i: a 0 where a line would begin.
fn page_ends(words: &[i16], i: usize, pen: Pen) -> bool
    requires { i < length words.now }
    ensures { result ≡ ends_page (get_or words.now i (pos 0)) pen }
{
    if words[i] == 0 {
        pen.at == pen.row
    } else {
        false
    }
}

// Draws the page that words say.
fn draw(words: &[i16], count: Count, out: &mut [u8])
    requires { (counted (lines_of_words words.now) ≡ Some count) × (count.lines ≤ most_lines) × (length out.old ≡ octets_in_front + octets_per_line * count.lines) }
    ensures { out.new ≡ page_of (lines_of_words words.now) }
{
    clear(out, count.lines);
    let mut pen = Pen {
        row: FIRST_BIT,
        at: FIRST_BIT,
    };
    for (i, word) in words.iter().enumerate() {
        if page_ends(words, i, pen) {
            return;
        }
        pen = draw_word(out, pen, *word);
    }
}
