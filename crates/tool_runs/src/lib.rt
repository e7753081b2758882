// A page file as run words.
#![tactic(auto)]

use bitmap::MOST_LINES;
use position::PELS_PER_LINE;
use reader::read_page;
use run_octets::octets_of_words;
use std::io;
use std::rt::HostRuntime;
use tool_files::{Input, Output, not_made, page_octets, write};
use tool_names::Identity;
use tool_options::{Options, read_check};
use words_write::words_of_lines;

// The lines whose words are written at once, and the most words that they have: a word a pel, and the 0 that ends the line.
const LINES: usize = 16;

const WORDS: usize = LINES * (PELS_PER_LINE + 1);

// Writes the octets of words.
fn write_words(to: &mut Output, words: &[i16]) -> io::Result<()> {
    if words.len() > WORDS {
        return not_made();
    }
    let mut out = [0u8; 2 * WORDS];
    octets_of_words(words, &mut out);
    write(to, &out[..2 * words.len()])
}

// Writes the words of some lines of a bitmap, from line `from` on.
fn write_lines(to: &mut Output, bitmap: &[u8], from: usize) -> io::Result<()> {
    let mut words = [0i16; WORDS];
    match words_of_lines(bitmap, from, LINES, &mut words) {
        Ok(n) => write_first(to, &words, n),
        Err(_) => not_made(),
    }
}

// Writes the octets of the first n words.
fn write_first(to: &mut Output, words: &[i16], n: usize) -> io::Result<()> {
    if n > words.len() {
        return not_made();
    }
    write_words(to, &words[..n])
}

// Writes the words of a page, some lines at a time, and the 0 that ends it.
fn write_page(to: &mut Output, bitmap: &[u8], lines: usize) -> io::Result<()> {
    if lines > MOST_LINES {
        return not_made();
    }
    for from in (0..lines).step_by(LINES) {
        write_lines(to, bitmap, from)?;
    }
    write(to, &[0, 0])
}

fn save_words(rt: &HostRuntime, bitmap: &[u8], lines: usize, input: Identity, to: usize) {
    if let Some(mut out) = tool_files::made(rt, to, input) {
        let written = write_page(&mut out, bitmap, lines);
        tool_files::finish(rt, out, written);
    }
}

fn save_page(rt: &HostRuntime, bitmap: &[u8], lines: usize, input: Identity, to: usize) {
    let n = page_octets(lines, bitmap);
    save_words(rt, &bitmap[..n], lines, input, to);
}

// The page file whose octets stand at the front of `file` as run words.
pub fn words(rt: &HostRuntime, file: &[u8], input: Input, bitmap: &mut [u8], o: Options) {
    let n = input.octets.min(file.len());
    match read_page(&file[..n], read_check(o), bitmap) {
        Ok(page) => save_page(rt, bitmap, page.lines, input.file, o.to),
        Err(refusal) => tool_says::refused_page(rt, refusal, o.from, input.coverage),
    }
}
