// The records of a file: which is due at a place, and which may come after those before it.
#![tactic(auto)]

ghost use Rattle.std.specs.Prelude.{◌≡◌, ◌+◌, ◌≤◌, length};
ghost use Rattle.records.specs.Records.{whole, pair_of, due_at, frame_at, framed_at, in_place, after_set_up};

use frame::{FrameKind, Record, turned};
use frame_parse::parse;
use octets::octet;
use refusal::Reason;
use register::Checker;

// A record by its length and command: with a frame, set-up 76, 56 or data 76, 57; or the end, 2, 58.
#[derive(Clone, Copy)]
pub enum Kind {
    Frame(FrameKind),
    End,
}

// How far a file has come: before its first set-up record, among the first set-up records, among the data records, among the set-up
// records behind them.
#[derive(Clone, Copy)]
pub enum Stage {
    Opening,
    SetUps,
    Datas,
    Closing,
}

// The frame of a record: its octets in sent order, and what it is taken apart to.
#[derive(Clone, Copy)]
pub struct Framed {
    pub octets: [u8; 74],
    pub taken: Result<Record, Reason>,
}

// A record of 76 octets with a frame, if so many are left.
fn whole_record(kind: FrameKind, left: usize) -> Result<Kind, Reason>
    ensures { result ≡ whole kind left }
{
    if left < 76 {
        Err(Reason::RecordIncomplete)
    } else {
        Ok(Kind::Frame(kind))
    }
}

// A pair of length and command, where `left` octets of the file are left.
fn pair(length: u8, command: u8, left: usize) -> Result<Kind, Reason>
    ensures { result ≡ pair_of length command left }
{
    if length == 2 {
        if command == 58 {
            return Ok(Kind::End);
        }
        return Err(Reason::RecordUnknown);
    }
    if length != 76 {
        return Err(Reason::RecordUnknown);
    }
    if command == 56 {
        return whole_record(FrameKind::SetUp, left);
    }
    if command == 57 {
        return whole_record(FrameKind::Data, left);
    }
    Err(Reason::RecordUnknown)
}

// The record that is due at octet `at`.
pub fn due_at(file: &[u8], at: usize) -> Result<Kind, Reason>
    ensures { result ≡ due_at file.now at }
{
    if file.len() < 2 {
        return Err(Reason::RecordIncomplete);
    }
    if file.len() - 2 < at {
        return Err(Reason::RecordIncomplete);
    }
    pair(octet(file, at), octet(file, at + 1), file.len() - at)
}

// The frame in sent order of the record that begins at octet `at`.
pub fn sent_frame(file: &[u8], at: usize) -> [u8; 74]
    requires { at + 2 ≤ length file.now }
    ensures { result ≡ frame_at file.now at }
{
    turned(&file[at + 2..])
}

// The frame of the record that begins at octet `at`, taken apart as one of its kind.
pub fn frame_of(checker: &Checker, file: &[u8], at: usize, kind: FrameKind) -> Framed
    requires { at + 2 ≤ length file.now }
    ensures { result ≡ framed_at checker.now.setting file.now at kind }
{
    let octets = sent_frame(file, at);
    let taken = parse(checker, kind, &octets);
    Framed { octets, taken }
}

// Whether a record may come at a stage.
pub fn in_place(kind: Kind, stage: Stage) -> bool
    ensures { result ≡ in_place kind stage }
{
    match kind {
        Kind::Frame(FrameKind::SetUp) => true,
        Kind::Frame(FrameKind::Data) => matches!(stage, Stage::SetUps | Stage::Datas),
        Kind::End => matches!(stage, Stage::Datas | Stage::Closing),
    }
}

// The stage after a set-up record.
pub fn after_set_up(stage: Stage) -> Stage
    ensures { result ≡ after_set_up stage }
{
    match stage {
        Stage::Opening | Stage::SetUps => Stage::SetUps,
        Stage::Datas | Stage::Closing => Stage::Closing,
    }
}
