// Whether a page may be written.
ghost use Rattle.std.specs.Prelude.{◌≡◌, ◌≤◌, IfSome, IfOk};
ghost use Rattle.refusal.specs.Reply.{valid};
ghost use Rattle.bitmap.specs.Form.{columns_of};
ghost use Rattle.bitmap.specs.Validity.{bitmap_validity};
ghost use Rattle.diagram.specs.Diagram.{move, enters_mixed};
ghost use Rattle.writer.specs.Call.{columns_at, requested, not_encodable, judge_page, with_columns};

use bitmap::lines;
use position::COLUMNS_PER_LINE;
use refusal::Reason;
use register::{Check, allowed};
use settings::{Settings, settings_of};
use state::{State, with_pels};
use units::find::column;

// What a page that may be written is written by: its settings, and the most columns of a frame.
#[derive(Clone, Copy)]
pub struct Writing {
    pub settings: Settings,
    pub most: usize,
}

// A frame that has more columns is closed, at a rate in bits a second; none for a rate that is not one of the three.
pub fn most_columns(rate: u64) -> Option<usize>
    ensures { (result ≡ columns_at rate) × IfSome result (λ most. most ≤ 9600) }
{
    match rate {
        2400 => Some(9600),
        4800 => Some(4800),
        9600 => Some(2400),
        _ => None,
    }
}

// The most columns of a frame, where the check setting is allowed and compares and the rate is one of the three; none where not.
fn requested(c: Check, rate: u64) -> Option<usize>
    ensures { (result ≡ requested c rate) × IfSome result (λ most. most ≤ 9600) }
{
    if !allowed(c) {
        return None;
    }
    if c.compare { most_columns(rate) } else { None }
}

// Whether a column is mixed after a solid one.
fn enters_mixed(before: State, last: State) -> bool
    ensures { result ≡ enters_mixed (move before last) }
{
    match before {
        State::Mixed(_) => false,
        State::Solid(_) => match last {
            State::Mixed(_) => true,
            State::Solid(_) => false,
        },
    }
}

// Whether the last column of a bitmap that may be taken cannot be encoded.
fn last_not_encodable(bitmap: &[u8]) -> bool
    requires { bitmap_validity bitmap.now ≡ valid }
    ensures { result ≡ not_encodable (columns_of bitmap.now) }
{
    let n = COLUMNS_PER_LINE * lines(bitmap);
    let before = with_pels(column(bitmap, n, n - 2) as usize);
    let last = with_pels(column(bitmap, n, n - 1) as usize);
    enters_mixed(before, last)
}

// Judges what is handed in as `write_page` does, up to the room for the file: what the page is written by, or the first refusal.
pub fn judge(bitmap: &[u8], settings: usize, rate: u64, c: Check) -> Result<Writing, Reason>
    ensures { (result ≡ with_columns rate (judge_page c settings rate bitmap.now)) × IfOk result (λ w. w.most ≤ 9600) }
{
    let Some(most) = requested(c, rate) else {
        return Err(Reason::RequestNotAllowed);
    };
    bitmap::judge(bitmap)?;
    let Some(settings) = settings_of(settings) else {
        return Err(Reason::SettingsNotAllowed);
    };
    if last_not_encodable(bitmap) {
        return Err(Reason::LastColumnNotEncodable);
    }
    Ok(Writing { settings, most })
}
