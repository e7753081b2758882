// The records of a file, a line each, each judged by itself whatever came before it.
#![tactic(auto)]

ghost use Rattle.std.specs.Prelude.{◌≡◌, true, false, ◌*◌, ◌≤◌, ◌↔◌, length, MatchResult};
ghost use Rattle.basics.specs.Cursor.{HasRoom, Writes};
ghost use Rattle.refusal.specs.declared.Reason.TheVariants.{RecordIncomplete};
ghost use Rattle.tool_records.specs.FoundLine.{found_line, is_record};

use basics::Cursor;
use record_found::{Found, step_at};
use record_lines::{put_end_record, put_record, put_refused};
use refusal::{Reason, Refusal};
use register::Check;
use std::rt::HostRuntime;
use tool_options::{Options, read_check};
use tool_says::Coverage;
use walker::{new, next};

// The line of what is found as record k.
fn put_found(out: &mut Cursor<'_, u8>, k: usize, found: Result<Found, Refusal>)
    requires { HasRoom (length (found_line k found)) out.old }
    ensures { Writes (found_line k found) out.old out.new }
{
    match found {
        Ok(Found::Record(record)) => put_record(out, k, record),
        Ok(Found::End) => put_end_record(out, k),
        Err(refusal) => put_refused(out, refusal),
    }
}

fn is_record(found: Result<Found, Refusal>) -> bool
    ensures { result ≡ is_record found }
{
    matches!(found, Ok(Found::Record(_)))
}

// A refusal is said too, on standard error, since then the file is not what was asked for.
fn say_refused(rt: &HostRuntime, found: Result<Found, Refusal>) {
    if let Err(refusal) = found {
        tool_says::refused(rt, refusal);
    }
}

// Shows the line of what is found as record k; answers whether the walk goes on.
pub fn show_found(rt: &HostRuntime, found: Result<Found, Refusal>, k: usize) -> bool
    ensures { result ≡ true → is_record found ≡ true }
{
    let mut space = [0u8; 192];
    let mut line = Cursor {
        items: &mut space,
        at: 0,
    };
    put_found(&mut line, k, found);
    if !tool_says::shown(rt, line.since(0)) {
        return false;
    }
    say_refused(rt, found);
    is_record(found)
}

// Goes through a file, and shows a line for each record.
fn show_records(rt: &HostRuntime, file: &[u8], c: Check) {
    let mut w = new(file);
    let mut k = 0;
    // A while: the walk says when it ends.
    while show_found(rt, next(&mut w, c), k) {
        k += 1;
    }
}

// What is found as record k of a file.
fn found_as(file: &[u8], k: usize, c: Check) -> Result<Found, Refusal>
    requires { 76 * k ≤ length file.now }
{
    step_at(file, 76 * k, c).found
}

// Whether an answer is the refusal of an incomplete record.
pub fn is_incomplete<T>(answer: &Result<T, Refusal>) -> bool
    ensures { MatchResult answer.now (λ _. result ≡ false) (λ refusal. (result ≡ true) ↔ (refusal.reason ≡ RecordIncomplete)) }
{
    matches!(answer, Err(refusal) if refusal.reason == Reason::RecordIncomplete)
}

// Whether the records come to one that is incomplete.
fn runs_out(file: &[u8], c: Check) -> bool {
    let n = file.len() / 76;
    for k in 0..n {
        let found = found_as(file, k, c);
        if !is_record(found) {
            return is_incomplete(&found);
        }
    }
    is_incomplete(&found_as(file, n, c))
}

// The records of a file on standard output, each judged by itself. Where only the file's first octets were read and they come to a record
// that is incomplete, it may go on behind them.
pub fn records(rt: &HostRuntime, file: &[u8], coverage: Coverage, o: Options) {
    let c = read_check(o);
    if coverage == Coverage::Cut && runs_out(file, c) {
        tool_says::complain_longer(rt, o.from);
    } else {
        show_records(rt, file, c);
    }
}
