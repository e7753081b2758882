// Page files read as portable bitmaps or PNGs.
#![tactic(auto)]

use printing::Times;
use reader::read_page;
use reader_progress::Page;
use settings::Mode;
use std::rt::HostRuntime;
use tool_files::{Input, page_octets};
use tool_names::Identity;
use tool_options::{Options, Playback, read_check};

// How often a line of a page in this mode is saved.
fn times(playback: Playback, mode: Mode) -> Times {
    match (playback, mode) {
        (Playback::Once, _) => Times::Once,
        (Playback::AsPrinted, Mode::Detail) => Times::Once,
        (Playback::AsPrinted, Mode::Quality) => Times::Twice,
        (Playback::AsPrinted, Mode::Express) => Times::Thrice,
    }
}

fn save_page(
    rt: &HostRuntime,
    page: Page,
    bitmap: &[u8],
    out: &mut [u8],
    input: Identity,
    o: Options,
) {
    let n = page_octets(page.lines, bitmap);
    tool_saves::save_page(
        rt,
        &bitmap[..n],
        times(o.playback, page.settings.mode),
        out,
        input,
        o.to,
    );
}

// The page file whose octets stand at the front of `file` as a portable bitmap or a PNG, which is made in the same place once the page is laid.
pub fn read(rt: &HostRuntime, file: &mut [u8], input: Input, bitmap: &mut [u8], o: Options) {
    let n = input.octets.min(file.len());
    match read_page(&file[..n], read_check(o), bitmap) {
        Ok(page) => save_page(rt, page, bitmap, file, input.file, o),
        Err(refusal) => tool_says::refused_page(rt, refusal, o.from, input.coverage),
    }
}
