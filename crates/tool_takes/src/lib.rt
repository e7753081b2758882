// Which files and options a command takes.
#![tactic(auto)]

use std::rt::HostRuntime;
use tool_options::{Options, Playback};
use tool_says::{complain, say};
use tool_words::command::Command;

// The kinds of option.
#[derive(Clone, Copy, PartialEq, Eq)]
enum OptionKind {
    Check,
    Writing,
    Playback,
}

// In the order in which they are looked at.
const KINDS: [OptionKind; 3] = [OptionKind::Check, OptionKind::Writing, OptionKind::Playback];

// How many files a command takes.
#[derive(Clone, Copy)]
enum Files {
    Zero = 0,
    One = 1,
    Two = 2,
}

fn files_taken(c: Command) -> Files {
    match c {
        Command::Help => Files::Zero,
        Command::List | Command::Records | Command::Frames => Files::One,
        Command::Read | Command::Write | Command::Words | Command::Bitmap | Command::Extract =>
            Files::Two,
    }
}

// The kinds of option that a command takes.
fn kinds_taken(c: Command) -> &'static [OptionKind] {
    match c {
        Command::Help | Command::Bitmap => &[],
        Command::List | Command::Records | Command::Words | Command::Frames | Command::Extract => &[
            OptionKind::Check,
        ],
        Command::Read => &[OptionKind::Check, OptionKind::Playback],
        Command::Write => &[OptionKind::Check, OptionKind::Writing],
    }
}

// Whether there is an option of a kind.
fn is_given(o: Options, kind: OptionKind) -> bool {
    match kind {
        OptionKind::Check => o.check.is_some(),
        OptionKind::Writing => o.writing.is_some(),
        OptionKind::Playback => matches!(o.playback, Playback::AsPrinted),
    }
}

// Says what is taken, and where to read of it.
fn say_taken(rt: &HostRuntime, what: &[u8]) {
    say(rt, b"d450: this command takes ");
    say(rt, what);
    say(rt, b"; `d450 help` tells what it takes\n");
}

// An option of this kind is not taken.
fn say_kind(rt: &HostRuntime, kind: OptionKind) {
    match kind {
        OptionKind::Check => say_taken(rt, b"no options of the check"),
        OptionKind::Writing => say_taken(rt, b"no options of writing"),
        OptionKind::Playback => say_taken(rt, b"no --playback"),
    }
}

// So many files are taken. It has the words of another type than `say_kind`.
fn say_files(rt: &HostRuntime, files: Files) {
    match files {
        Files::Zero => say_taken(rt, b"no file"),
        Files::One => say_taken(rt, b"one file"),
        Files::Two => say_taken(rt, b"two files"),
    }
}

// Whether the command takes these files and these options. Where it does not, it says so.
pub fn fits(rt: &HostRuntime, c: Command, o: Options) -> bool {
    if let Some(i) = o.wrong {
        complain(
            rt,
            i,
            b"is no option, or has no value that it takes; `d450 help` lists them",
        );
        return false;
    }
    for kind in KINDS {
        if is_given(o, kind) && !kinds_taken(c).contains(&kind) {
            say_kind(rt, kind);
            return false;
        }
    }
    let files = files_taken(c);
    if o.names != files as usize {
        say_files(rt, files);
        return false;
    }
    true
}
