// Where the pels of a page of two lines stand in its bitmap, laid as columns and drawn from run words.
#![tactic(auto)]

use bitmap_lay::{clear, lay};
use octets::octet;
use position::position_after;
use vector_text::show::{named, words};
use words_read::bitmap_of_words;

fn show_octet(rt: &impl Print, page: &[u8], i: usize) {
    named(rt, b" octet ", i);
    named(rt, b" is ", octet(page, i) as usize);
}

// The sizes, and the first and the last octet of both lines.
fn show_page(rt: &impl Print, page: &[u8]) {
    show_octet(rt, page, 0);
    show_octet(rt, page, 1);
    show_octet(rt, page, 2);
    show_octet(rt, page, 3);
    show_octet(rt, page, 4);
    show_octet(rt, page, 219);
    show_octet(rt, page, 220);
    show_octet(rt, page, 435);
    words(rt, b"\n");
}

// BW, WB twice, and BB to the end of the row pair.
fn show_laid(rt: &impl Print) {
    let mut page = [0u8; 436];
    clear(&mut page, 2);
    let second = lay(&mut page, position_after(0), 1, 2);
    let fourth = lay(&mut page, second, 2, 1);
    lay(&mut page, fourth, 1723, 3);
    words(rt, b"laid");
    show_page(rt, &page);
}

// A line with a black pel at either end, and one with a black pel behind a white one.
fn show_drawn(rt: &impl Print) {
    let run_words = [-1i16, 1724, -1, 0, 1, -1, 0, 0];
    let mut page = [0u8; 436];
    match bitmap_of_words(&run_words, &mut page) {
        Ok(_) => words(rt, b"drawn"),
        Err(_) => words(rt, b"refused"),
    }
    show_page(rt, &page);
}

pub fn show_pages(rt: &impl Print) {
    show_laid(rt);
    show_drawn(rt);
}
