// What the records of a page file come to, one after the other, and the page at its end.
#![tactic(auto)]

ghost use Rattle.std.specs.Prelude.{◌≡◌, ◌<◌, ◌^◌};
ghost use Rattle.position.specs.Position.{columns_before};
ghost use Rattle.reader_progress.specs.Progress.{first_progress, first_settings, with_set_up, page_at_end, with_data};

use bitmap::lines_allowed;
use chain::{Image, blank_image, open_in};
use diagram::{Bits, Columns};
use frame::Record;
use position::columns_before;
use records::{Stage, after_set_up};
use refusal::{Fault, Reason};
use settings::{Mode, Paper, Settings};

// What the records so far come to: how far the file has come, the first set-up record's settings, the sequence number that is due
// next, and the image.
#[derive(Clone, Copy)]
pub struct FileProgress {
    pub stage: Stage,
    pub settings: Settings,
    pub sequence: usize,
    pub image: Image,
}

// What a record comes to: the file goes on behind this record, or the page has ended.
#[derive(Clone, Copy)]
pub enum RecordEffect {
    On(Record, FileProgress),
    Page(Page),
}

// What a file says of its page: the octets of the file that were used, the page's lines, its settings, the data bits and the columns.
#[derive(Clone, Copy)]
pub struct Page {
    pub octets: usize,
    pub lines: usize,
    pub settings: Settings,
    pub bits: Bits,
    pub columns: Columns,
}

// Before the first record. The settings that stand here are replaced by those of the first set-up record.
pub fn first_progress() -> FileProgress
    ensures { result ≡ first_progress }
{
    FileProgress {
        stage: Stage::Opening,
        settings: Settings {
            mode: Mode::Quality,
            paper: Paper::Eleven,
        },
        sequence: 0,
        image: blank_image(),
    }
}

// Settings are those of the first set-up record.
fn first_settings(stage: Stage, first: Settings, settings: Settings) -> Settings
    ensures { result ≡ first_settings stage first settings }
{
    match stage {
        Stage::Opening => settings,
        Stage::SetUps | Stage::Datas | Stage::Closing => first,
    }
}

// After a set-up record.
pub fn with_set_up(p: FileProgress, settings: Settings) -> FileProgress
    ensures { result ≡ with_set_up p settings }
{
    FileProgress {
        stage: after_set_up(p.stage),
        settings: first_settings(p.stage, p.settings, settings),
        sequence: p.sequence,
        image: p.image,
    }
}

// At the end record, which is record k.
pub fn end_page(p: FileProgress, k: usize) -> Result<RecordEffect, Fault>
    requires { (k < 2 ^ 40) × (columns_before p.image.position < 2 ^ 60) }
    ensures { result ≡ page_at_end p k }
{
    let image = p.image;
    let position = image.position;
    if open_in(image.end) != 0 {
        return Err(Reason::PageEndsOpen.into());
    }
    if position.column != 0 {
        return Err(Reason::ColumnsNotWholePairs.into());
    }
    if position.pair == 0 {
        return Err(Reason::ColumnsNotWholePairs.into());
    }
    let lines = 2 * position.pair;
    if !lines_allowed(lines) {
        return Err(Reason::TooManyLines.into());
    }
    Ok(RecordEffect::Page(Page {
        octets: 76 * k + 2,
        lines,
        settings: p.settings,
        bits: image.bits,
        columns: Columns(columns_before(position)),
    }))
}

// After a data record with this image.
pub fn with_data(p: FileProgress, image: Image) -> FileProgress
    requires { p.sequence < 4 }
    ensures { result ≡ with_data p image }
{
    FileProgress {
        stage: Stage::Datas,
        settings: p.settings,
        sequence: (p.sequence + 1) % 4,
        image,
    }
}
