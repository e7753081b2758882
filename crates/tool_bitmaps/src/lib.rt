// A file of run words as a bitmap. The words are read some at a time and drawn line by line, up to the 0 that ends the page: octets behind it are
// not looked at. Words that break their rule are refused first (22), however many lines there are before them, and so is a file that ends
// before its page does, be it within a word; then a number of lines that is not allowed (17).
#![tactic(auto)]

ghost use Rattle.std.specs.Prelude.{◌≤◌, length};

use bitmap::{lines_allowed, put_sizes};
use refusal::Reason;
use run_octets::words_of_octets;
use std::rt::HostRuntime;
use system::input::{Source, read_full};
use tool_files::page_octets;
use tool_lines::{Drawing, Stop, draw_lines};
use tool_names::{Identity, Name, argument};
use tool_options::Options;
use tool_says::refused_at_once;

// The words that are held at once: any line with its 0, and many more.
const WORDS: usize = 32_768;

// The most times that words are read: more than any file has.
const MOST_READS: usize = 0x1_0000_0000_0000;

// How far words were read: as far as there was room, or to the end of the file.
#[derive(Clone, Copy)]
enum Reach {
    Room,
    End,
}

// The words held, and how far they were read.
#[derive(Clone, Copy)]
struct Held {
    words: usize,
    reach: Reach,
}

// Moves the words from place `at` up to place `end` to the front.
fn move_to_front(words: &mut [i16], at: usize, end: usize)
    requires { end ≤ length words.old }
{
    for i in at..end {
        words[i - at] = words[i];
    }
}

// Reads words behind those that are held.
fn read_words(from: &mut Source, words: &mut [i16], held: usize) -> Held
    requires { (held ≤ length words.old) × (length words.old ≤ 32768) }
    ensures { result.words ≤ length words.old }
{
    let mut octets = [0u8; 65536];
    let room = 2 * (words.len() - held);
    let n = read_full(from, &mut octets[..room]);
    words_of_octets(&octets[..n], &mut words[held..]);
    Held {
        words: held + n / 2,
        reach: if n < room { Reach::End } else { Reach::Room },
    }
}

// A file that ends before its page does breaks the rule.
fn stop_at(stop: Stop, reach: Reach) -> Stop {
    match (stop, reach) {
        (Stop::More, Reach::End) => Stop::Broken,
        (Stop::More, Reach::Room) => Stop::More,
        (Stop::EndOfPage, _) => Stop::EndOfPage,
        (Stop::Broken, _) => Stop::Broken,
    }
}

// Reads more words, and draws the lines that are whole then.
fn draw_more(from: &mut Source, words: &mut [i16], d: Drawing, bitmap: &mut [u8]) -> Drawing
    requires { (d.lines ≤ 65536) × (d.held ≤ length words.old) × (length words.old ≤ 32768) }
    ensures { (result.lines ≤ 65536) × (result.held ≤ length words.old) }
{
    let now = read_words(from, words, d.held);
    let drawn = draw_lines(&words[..now.words], d.lines, bitmap);
    move_to_front(words, now.words - drawn.held, now.words);
    Drawing {
        lines: drawn.lines,
        held: drawn.held,
        stop: stop_at(drawn.stop, now.reach),
    }
}

// Draws the page of a file of words.
fn draw_page(from: &mut Source, bitmap: &mut [u8]) -> Drawing
    ensures { result.lines ≤ 65536 }
{
    let mut words = [0i16; WORDS];
    let mut d = Drawing {
        lines: 0,
        held: 0,
        stop: Stop::More,
    };
    for _ in 0..MOST_READS {
        d = draw_more(from, &mut words, d, bitmap);
        if !matches!(d.stop, Stop::More) {
            return d;
        }
    }
    d
}

// Saves the page of so many lines, whose rows are drawn.
fn save_page(rt: &HostRuntime, lines: usize, bitmap: &mut [u8], input: Identity, to: usize)
    requires { 4 ≤ length bitmap.old }
{
    if !lines_allowed(lines) {
        return refused_at_once(rt, Reason::BitmapSizeNotAllowed);
    }
    put_sizes(bitmap, lines);
    let n = page_octets(lines, bitmap);
    tool_files::save(rt, to, input, &bitmap[..n]);
}

// Words that break their rule, or a file that cannot be read to its end.
fn not_drawn(rt: &HostRuntime, from: Source, name: Name) {
    if tool_files::goes_on(rt, from, name).is_some() {
        refused_at_once(rt, Reason::RunWordsNotAllowed);
    }
}

// The bitmap of an open file of run words.
fn draw_file(rt: &HostRuntime, mut from: Source, file: Identity, bitmap: &mut [u8], o: Options)
    requires { 4 ≤ length bitmap.old }
{
    let d = draw_page(&mut from, bitmap);
    match d.stop {
        Stop::EndOfPage => save_page(rt, d.lines, bitmap, file, o.to),
        Stop::More | Stop::Broken => not_drawn(rt, from, argument(rt, o.from)),
    }
}

// A file of run words as a bitmap.
pub fn bitmap(rt: &HostRuntime, bitmap: &mut [u8], o: Options)
    requires { 4 ≤ length bitmap.old }
{
    let given = argument(rt, o.from);
    if let Some(from) = tool_files::opened(rt, given) {
        if let Some(file) = tool_files::identified(rt, &from, given) {
            draw_file(rt, from, file, bitmap, o);
        }
    }
}
