// The arguments behind the command: files, and options that say how.
#![tactic(auto)]

ghost use Rattle.std.specs.Prelude.{◌≡◌, ◌≤◌, MatchOption};
ghost use Rattle.register.specs.Setting.{recorded_check};

use register::{Check, recorded, rfc};
use settings::Paper;
use std::ops::Range;
use std::rt::Env;
use system::arguments::{argument, argument_count};
use tool_words::values::{NamedCheck, check_at, number_at, order_at, paper_at};

// An option that stands alone.
#[derive(Clone, Copy)]
enum Flag {
    Compare,
    NoCompare,
    Playback,
    Express,
    Detail,
}

// An option whose value is the next argument.
#[derive(Clone, Copy)]
enum Setting {
    Check,
    Generator,
    Start,
    First,
    Order,
    Rate,
    Paper,
}

// What is said of comparing checks. Where nothing is said reading does not, and writing writes what can be.
#[derive(Clone, Copy)]
pub enum Comparing {
    Unsaid,
    Compared,
    Uncompared,
}

// How often each line of a page that is read is saved: once, or as often as the machine prints it.
#[derive(Clone, Copy)]
pub enum Playback {
    Once,
    AsPrinted,
}

// How a page is written.
#[derive(Clone, Copy)]
pub struct WriteOptions {
    pub rate: u64,
    // Each is asked for by itself. Both may be, which is refused as settings that are not allowed: an enum of the four cases would be taken apart into
    // these two again, for the bits that writer's SettingBits has.
    pub express: bool,
    pub detail: bool,
    pub paper: Paper,
}

// How a page is written where no option of writing is given.
pub const USUAL: WriteOptions = WriteOptions {
    rate: 4800,
    express: false,
    detail: false,
    paper: Paper::Eleven,
};

#[derive(Clone, Copy)]
pub struct Options {
    // The setting of the check, where there is an option of it.
    pub check: Option<Check>,
    pub comparing: Comparing,
    // How a page is written, where there is an option of writing.
    pub writing: Option<WriteOptions>,
    pub playback: Playback,
    // The first and the second file, as the numbers of their arguments, and how many there are: no Options, since a command runs only where there
    // are as many as it takes.
    pub from: usize,
    pub to: usize,
    pub names: usize,
    // The number of the first argument that cannot be understood.
    pub wrong: Option<usize>,
}

// No arguments yet.
fn start() -> Options {
    Options {
        check: None,
        comparing: Comparing::Unsaid,
        writing: None,
        playback: Playback::Once,
        from: 0,
        to: 0,
        names: 0,
        wrong: None,
    }
}

fn flag_of(word: &[u8]) -> Option<Flag> {
    match word {
        b"--compare" => Some(Flag::Compare),
        b"--no-compare" => Some(Flag::NoCompare),
        b"--playback" => Some(Flag::Playback),
        b"--express" => Some(Flag::Express),
        b"--detail" => Some(Flag::Detail),
        _ => None,
    }
}

fn setting_of(word: &[u8]) -> Option<Setting> {
    match word {
        b"--check" => Some(Setting::Check),
        b"--generator" => Some(Setting::Generator),
        b"--start" => Some(Setting::Start),
        b"--first" => Some(Setting::First),
        b"--order" => Some(Setting::Order),
        b"--rate" => Some(Setting::Rate),
        b"--paper" => Some(Setting::Paper),
        _ => None,
    }
}

fn take_name(o: &mut Options, i: usize) {
    if o.names == 0 {
        o.from = i;
    }
    if o.names == 1 {
        o.to = i;
    }
    if o.names < 3 {
        o.names += 1;
    }
}

// The setting of the check, to be changed: the recorded one at first.
fn check_of(o: &mut Options) -> &mut Check {
    o.check.get_or_insert(recorded())
}

// How a page is written, to be changed: as usual at first.
fn writing_of(o: &mut Options) -> &mut WriteOptions {
    o.writing.get_or_insert(USUAL)
}

fn take_comparing(o: &mut Options, comparing: Comparing) {
    o.comparing = comparing;
    check_of(o).compare = matches!(comparing, Comparing::Compared);
}

fn take_flag(o: &mut Options, f: Flag) {
    match f {
        Flag::Compare => take_comparing(o, Comparing::Compared),
        Flag::NoCompare => take_comparing(o, Comparing::Uncompared),
        Flag::Playback => o.playback = Playback::AsPrinted,
        Flag::Express => writing_of(o).express = true,
        Flag::Detail => writing_of(o).detail = true,
    }
}

// A check setting by its name.
fn take_named_check(o: &mut Options, named: NamedCheck) {
    let (check, comparing) = match named {
        NamedCheck::Scope => (recorded(), Comparing::Compared),
        NamedCheck::Rfc => (rfc(), Comparing::Compared),
        NamedCheck::Uncompared => (recorded(), Comparing::Uncompared),
    };
    o.check = Some(check);
    take_comparing(o, comparing);
}

// A setting whose value is argument i, or none where that is no value that it takes.
fn take_setting(env: &impl Env, o: &mut Options, s: Setting, i: usize) -> Option<()> {
    match s {
        Setting::Check => take_named_check(o, check_at(env, i)?),
        Setting::Generator => check_of(o).generator = number_at(env, i)?,
        Setting::Start => check_of(o).start = number_at(env, i)?,
        Setting::First => check_of(o).first = number_at(env, i)?,
        Setting::Order => check_of(o).order = order_at(env, i)?,
        Setting::Rate => writing_of(o).rate = number_at(env, i)?,
        Setting::Paper => writing_of(o).paper = paper_at(env, i)?,
    }
    Some(())
}

// Whether a word is an option: whatever does not begin with two hyphens is a file's name.
fn is_option(word: &[u8]) -> bool {
    word.starts_with(b"--")
}

// Takes argument i, and, where it is an option with a value, the next one of `behind` too; None where it cannot be understood.
fn take_argument(env: &impl Env, o: &mut Options, i: usize, behind: &mut Range<usize>) -> Option<()>
    ensures { (behind.new.end ≡ behind.old.end) × (behind.old.start ≤ behind.new.start) }
{
    let mut space = [0u8; 4096];
    let n = argument(env, i, &mut space);
    let word = &space[..n];
    if !is_option(word) {
        take_name(o, i);
        return Some(());
    }
    if let Some(f) = flag_of(word) {
        take_flag(o, f);
        return Some(());
    }
    take_setting(env, o, setting_of(word)?, behind.next()?)
}

pub fn given(env: &impl Env) -> Options {
    let mut o = start();
    let mut numbers = 2..argument_count(env);
    // A while: an option may take the next argument too.
    while let Some(i) = numbers.next() {
        if take_argument(env, &mut o, i, &mut numbers).is_none() {
            o.wrong = Some(i);
            return o;
        }
    }
    o
}

// The check setting of a command that reads: compared only where it is said that checks are. Where nothing is said it is the recorded setting.
pub fn read_check(o: Options) -> Check
    ensures { MatchOption o.check (result ≡ recorded_check) (λ check. result ≡ check) }
{
    o.check.unwrap_or_else(recorded)
}

// The check setting of a command that must compare: compared, unless it is said that checks are not, which is refused.
pub fn compared(o: Options) -> Check {
    Check {
        compare: !matches!(o.comparing, Comparing::Uncompared),
        ..read_check(o)
    }
}
