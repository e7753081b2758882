// The tool for page files: lists one, shows the records of one that need not be in order, reads one as a portable bitmap or as run words, writes one from a portable bitmap, and turns run words
// into the bitmap form. A program has no exit status: whoever runs it takes an empty standard error for success.
#![tactic(auto)]

use std::rt::HostRuntime;
use system::arguments::argument_count;
use tool_files::{Input, space};
use tool_options::{Options, given};
use tool_says::{Coverage, complain, help};
use tool_takes::fits;
use tool_words::command::{Command, chosen};

// Each function that holds arrays stays one by itself: put into `main`, all commands would need the room of the largest, the help too.

// Reads a page file, and takes this step with it. Only the file is held.
#[inline(never)]
fn with_file<F>(rt: &HostRuntime, o: Options, step: F)
where
    F: FnOnce(&HostRuntime, &[u8], Coverage, Options),
    requires { F.IsAlwaysCallable step }
{
    let mut file = space::file();
    if let Some(input) = tool_files::read(rt, o.from, &mut file) {
        step(rt, &file[..input.octets], input.coverage, o);
    }
}

// Reads a page file, and takes this step with it. A file is held, and its page.
#[inline(never)]
fn with_page<F>(rt: &HostRuntime, o: Options, step: F)
where
    F: FnOnce(&HostRuntime, &mut [u8], Input, &mut [u8], Options),
    requires { F.IsAlwaysCallable step }
{
    let mut file = space::file();
    let mut bitmap = space::page();
    if let Some(input) = tool_files::read(rt, o.from, &mut file) {
        step(rt, &mut file, input, &mut bitmap, o);
    }
}

// Writes a page file. A file is held, and the page.
#[inline(never)]
fn write(rt: &HostRuntime, o: Options) {
    let mut file = space::file();
    let mut bitmap = space::page();
    tool_writes::write(rt, &mut file, &mut bitmap, o);
}

// Draws a page of run words. Only the page is held.
#[inline(never)]
fn draw(rt: &HostRuntime, o: Options) {
    let mut bitmap = space::page();
    tool_bitmaps::bitmap(rt, &mut bitmap, o);
}

// Takes this step with a raw capture and the list of its frames, for which there is room.
#[inline(never)]
fn with_capture<F>(rt: &HostRuntime, o: Options, step: F)
where
    F: FnOnce(&HostRuntime, &mut [u8], &mut [u64], Options),
    requires { F.IsAlwaysCallable step }
{
    let mut file = space::file();
    let mut list = space::list();
    step(rt, &mut file, &mut list, o);
}

// Without a command the help is shown, and one that there is not is named; neither is what was asked for.
fn help_wanted(rt: &HostRuntime) {
    if argument_count(rt) < 2 {
        help::show(&rt.stderr());
    } else {
        complain(rt, 1, b"is no command; `d450 help` lists them");
    }
}

fn run(rt: &HostRuntime, c: Command, o: Options) {
    match c {
        Command::Help => help::show(&rt.stdout()),
        Command::List => with_file(rt, o, tool_lists::list),
        Command::Records => with_file(rt, o, tool_records::records),
        Command::Read => with_page(rt, o, tool_reads::read),
        Command::Words => with_page(rt, o, |rt, file, input, bitmap, o| {
            tool_runs::words(rt, file, input, bitmap, o)
        }),
        Command::Write => write(rt, o),
        Command::Bitmap => draw(rt, o),
        Command::Frames => with_capture(rt, o, tool_captures::frames),
        Command::Extract => with_capture(rt, o, tool_captures::extract),
    }
}

fn main(rt: HostRuntime) {
    let Some(c) = chosen(&rt) else {
        return help_wanted(&rt);
    };
    let o = given(&rt);
    if fits(&rt, c, o) {
        run(&rt, c, o);
    }
}
