// The lines of a listing, each written behind what is written.
#![tactic(auto)]

ghost use Rattle.std.specs.Prelude.{length};
ghost use Rattle.basics.specs.Cursor.{HasRoom, Writes};
ghost use Rattle.refusal.specs.Number.{number_of};
ghost use Rattle.record_lines.specs.Lines.{mode_word, paper_word, state_end, lengths_end, set_up_line, data_line, record_line, end_line, end_lines, bit_word, refusal_line};

use basics::Cursor;
use frame::{Header, Record};
use refusal::{Reason, Refusal};
use settings::{Mode, Paper, Settings};
use state::{State, pels};
use text::{put_decimal, put_named};

// The word of a mode. `put_paper` is only of the same form: it has the words of another type.
fn put_mode(out: &mut Cursor<'_, u8>, mode: Mode)
    requires { HasRoom (length (mode_word mode)) out.old }
    ensures { Writes (mode_word mode) out.old out.new }
{
    match mode {
        Mode::Quality => out.put_all(b"quality"),
        Mode::Detail => out.put_all(b"detail"),
        Mode::Express => out.put_all(b"express"),
    }
}

// A paper by its length in inches.
fn put_paper(out: &mut Cursor<'_, u8>, paper: Paper)
    requires { HasRoom (length (paper_word paper)) out.old }
    ensures { Writes (paper_word paper) out.old out.new }
{
    match paper {
        Paper::Eleven => out.put_all(b"11"),
        Paper::FiveAndHalf => out.put_all(b"5.5"),
        Paper::Fourteen => out.put_all(b"14"),
    }
}

// The line of a set-up record.
fn put_set_up(out: &mut Cursor<'_, u8>, k: usize, settings: Settings)
    requires { HasRoom (length (set_up_line k settings)) out.old }
    ensures { Writes (set_up_line k settings) out.old out.new }
{
    put_decimal(out, k);
    out.put_all(b" setup ");
    put_mode(out, settings.mode);
    out.put_all(b" ");
    put_paper(out, settings.paper);
    out.put_all(b"\n");
}

// The end of a data record's line: the state by its two pels, the top one first.
fn put_state(out: &mut Cursor<'_, u8>, state: State)
    requires { HasRoom (length (state_end state)) out.old }
    ensures { Writes (state_end state) out.old out.new }
{
    let p = pels(state);
    out.put_all(b" state ");
    out.put_all(&[b'0' + p / 2, b'0' + p % 2]);
    out.put_all(b"\n");
}

// A data record's field lengths, and what stands behind them.
fn put_lengths(out: &mut Cursor<'_, u8>, h: Header)
    requires { HasRoom (length (lengths_end h)) out.old }
    ensures { Writes (lengths_end h) out.old out.new }
{
    put_named(out, b" black ", h.black);
    put_named(out, b" white ", h.white);
    put_state(out, h.state);
}

// The line of a data record.
fn put_data(out: &mut Cursor<'_, u8>, k: usize, h: Header)
    requires { HasRoom (length (data_line k h)) out.old }
    ensures { Writes (data_line k h) out.old out.new }
{
    put_decimal(out, k);
    put_named(out, b" data seq ", h.sequence);
    put_named(out, b" count ", h.count);
    put_named(out, b" x ", h.x);
    put_lengths(out, h);
}

// The line of record k, which is a set-up record or a data record.
pub fn put_record(out: &mut Cursor<'_, u8>, k: usize, record: Record)
    requires { HasRoom (length (record_line k «record»)) out.old }
    ensures { Writes (record_line k «record») out.old out.new }
{
    match record {
        Record::SetUp(settings) => put_set_up(out, k, settings),
        Record::Data(h) => put_data(out, k, h),
    }
}

// The end record's line.
pub fn put_end_record(out: &mut Cursor<'_, u8>, k: usize)
    requires { HasRoom (length (end_line k)) out.old }
    ensures { Writes (end_line k) out.old out.new }
{
    put_decimal(out, k);
    out.put_all(b" end\n");
}

// The end record's line, and the page's number of lines.
pub fn put_end(out: &mut Cursor<'_, u8>, k: usize, lines: usize)
    requires { HasRoom (length (end_lines k lines)) out.old }
    ensures { Writes (end_lines k lines) out.old out.new }
{
    put_end_record(out, k);
    put_named(out, b"ok lines ", lines);
    out.put_all(b"\n");
}

// The bit in the line of a refusal, which stands in that of 11 alone.
fn put_bit(out: &mut Cursor<'_, u8>, refusal: Refusal)
    requires { HasRoom (length (bit_word (number_of refusal.reason) refusal.bit)) out.old }
    ensures { Writes (bit_word (number_of refusal.reason) refusal.bit) out.old out.new }
{
    if refusal.reason == Reason::NoReading {
        put_named(out, b" bit ", refusal.bit);
    }
}

// The line of a refusal.
pub fn put_refused(out: &mut Cursor<'_, u8>, refusal: Refusal)
    requires { HasRoom (length (refusal_line refusal)) out.old }
    ensures { Writes (refusal_line refusal) out.old out.new }
{
    put_named(out, b"refused ", u64::from(refusal.reason) as usize);
    put_named(out, b" at ", refusal.record);
    put_bit(out, refusal);
    out.put_all(b"\n");
}
