// A page saved as a portable bitmap, or as a PNG where the name of the file ends in `.png`.
#![tactic(auto)]

ghost use Rattle.std.specs.Prelude.{◌≡◌, true};
ghost use Rattle.tool_saves.specs.Names.{NamesPng};

use pbm_writer::pbm_of_bitmap;
use png_writer::png_of_bitmap;
use printing::Times;
use refusal::Reason;
use std::rt::HostRuntime;
use system::arguments::argument;
use tool_names::Identity;

// Whether a name ends in `.png`.
fn names_png(name: &[u8]) -> bool
    ensures { (result ≡ true → NamesPng name.now) × (NamesPng name.now → result ≡ true) }
{
    name.ends_with(b".png")
}

// Whether argument i names a PNG. It reads an argument as `tool_words` reads a value: one function of both would be public, and could promise
// nothing of what an argument is.
fn asks_png(rt: &HostRuntime, i: usize) -> bool {
    let mut path = [0u8; 4096];
    let n = argument(rt, i, &mut path);
    names_png(&path[..n])
}

// Saves what was made in `out`.
fn save(rt: &HostRuntime, made: Result<usize, Reason>, out: &[u8], input: Identity, to: usize) {
    match made {
        Ok(n) => tool_files::save(rt, to, input, &out[..n.min(out.len())]),
        Err(reason) => tool_says::refused_at_once(rt, reason),
    }
}

// Saves a page, each line as often as it is printed, by the number of the argument that names the file. The file is made in `out`; `input` is the
// file that was read.
pub fn save_page(
    rt: &HostRuntime,
    bitmap: &[u8],
    times: Times,
    out: &mut [u8],
    input: Identity,
    to: usize,
) {
    let made = if asks_png(rt, to) {
        png_of_bitmap(bitmap, times, out)
    } else {
        pbm_of_bitmap(bitmap, times, out)
    };
    save(rt, made, out, input, to);
}
