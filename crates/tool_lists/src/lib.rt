// A page file listed: a line for each record, written as soon as the record is judged, so that a file of any length is listed.
#![tactic(auto)]

ghost use Rattle.std.specs.Prelude.{◌≤◌, length};
ghost use Rattle.reader_judge.specs.File.{most_octets};

use reader_judge::{judge_page, octets_read};
use reader_progress::{RecordEffect, first_progress};
use reader_record::record_next;
use record_found::Found;
use refusal::{Reason, at_record};
use register::{Check, Checker};
use std::rt::HostRuntime;
use tool_options::{Options, read_check};
use tool_records::{is_incomplete, show_found};
use tool_says::{Coverage, shown};

// The line behind the end record's: what the file comes to.
fn show_lines(rt: &HostRuntime, lines: usize) {
    shown(rt, b"ok lines ");
    let _ = rt.print(lines);
    shown(rt, b"\n");
}

// The lines of a file's records, and then what the file comes to, each record judged after those before it.
fn show_listing(rt: &HostRuntime, file: &[u8], checker: &Checker)
    requires { length file.now ≤ most_octets }
{
    let mut p = first_progress();
    let mut k = 0;
    // A loop: the records say when it ends.
    loop {
        match record_next(checker, file, k, p) {
            Err(fault) => {
                show_found(rt, Err(at_record(fault, k)), k);
                return;
            }
            Ok(RecordEffect::Page(page)) => {
                show_found(rt, Ok(Found::End), k);
                show_lines(rt, page.lines);
                return;
            }
            Ok(RecordEffect::On(record, q)) => {
                if !show_found(rt, Ok(Found::Record(record)), k) {
                    return;
                }
                p = q;
            }
        }
        k += 1;
    }
}

// The listing of a file, under a check setting that is allowed.
fn list_under(rt: &HostRuntime, c: Check, file: &[u8]) {
    let Some(checker) = Checker::new(c) else {
        return tool_says::refused_at_once(rt, Reason::RequestNotAllowed);
    };
    let n = octets_read(file.len());
    show_listing(rt, &file[..n], &checker);
}

// A page file record by record, on standard output. Where only the file's first octets were read and they stop too early, it may go on behind them.
pub fn list(rt: &HostRuntime, file: &[u8], coverage: Coverage, o: Options) {
    let c = read_check(o);
    if coverage == Coverage::Cut && is_incomplete(&judge_page(file, c)) {
        tool_says::complain_longer(rt, o.from);
    } else {
        list_under(rt, c, file);
    }
}
