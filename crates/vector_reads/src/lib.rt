// Page files, read whole: the appendix's five records, and the scope paper's page of two white lines.
#![tactic(auto)]

use octets::octet;
use reader::read_page;
use reader_progress::Page;
use refusal::Refusal;
use vector_files::{setting, white_page, with_end};
use vector_text::fields::show_refused;
use vector_text::show::{named, words};

fn show_octet(rt: &impl Print, out: &[u8], name: &[u8], i: usize) {
    named(rt, name, octet(out, i) as usize);
}

// Of a page of two lines its number of lines, its last octet and the one behind it.
fn show_octets(rt: &impl Print, out: &[u8]) {
    show_octet(rt, out, b" octet 2 is ", 2);
    show_octet(rt, out, b" octet 435 is ", 435);
    show_octet(rt, out, b" octet 436 is ", 436);
}

fn show_page(rt: &impl Print, page: Page) {
    named(rt, b" octets ", page.octets);
    named(rt, b" lines ", page.lines);
    named(rt, b" settings ", usize::from(page.settings));
    named(rt, b" bits ", page.bits.0);
    named(rt, b" columns ", page.columns.0);
}

fn show_refusal(rt: &impl Print, refusal: Refusal) {
    show_refused(rt, refusal.reason);
    named(rt, b" at ", refusal.record);
}

// What a file says, with this room for its page.
fn show_file(rt: &impl Print, name: &[u8], file: &[u8], out: &mut [u8], compare: bool) {
    words(rt, name);
    match read_page(file, setting(compare), out) {
        Ok(page) => {
            show_page(rt, page);
            show_octets(rt, out);
        }
        Err(refusal) => show_refusal(rt, refusal),
    }
    words(rt, b"\n");
}

// The five records, without an end record and with it.
pub fn show_appendix(rt: &impl Print, all: &[u8]) {
    let file = with_end(all);
    let mut out = [255u8; 437];
    show_file(rt, b"appendix", &file[..380], &mut out, false);
    show_file(rt, b"appendix and end", &file[..382], &mut out, false);
}

// The page whole, and without its last octet. The room is full of ones before.
fn show_whole(rt: &impl Print, file: [u8; 230]) {
    let mut out = [255u8; 437];
    show_file(rt, b"white", &file, &mut out, true);
    show_file(rt, b"white cut short", &file[..229], &mut out, true);
}

// With an octet of room less.
fn show_without_room(rt: &impl Print, file: [u8; 230]) {
    let mut short = [255u8; 435];
    show_file(rt, b"white without room", &file, &mut short, true);
}

// With a data bit of record 2 turned, compared and not.
fn show_turned(rt: &impl Print, mut file: [u8; 230]) {
    let mut out = [255u8; 437];
    file[162] = file[162] ^ 1;
    show_file(rt, b"white with a bit turned", &file, &mut out, true);
    show_file(
        rt,
        b"white with a bit turned, not compared",
        &file,
        &mut out,
        false,
    );
}

pub fn show_white(rt: &impl Print) {
    let file = white_page();
    show_whole(rt, file);
    show_without_room(rt, file);
    show_turned(rt, file);
}
