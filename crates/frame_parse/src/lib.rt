// A frame taken apart, from its octets in sent order.
#![tactic(auto)]

ghost use Rattle.std.specs.Prelude.{◌≡◌};
ghost use Rattle.frame.specs.Layout.{sync_agrees, check_sent, check_agrees, header_of, kind_of, set_up_of, content_of, parsed};

use frame::{FrameKind, Header, Record, SYNC};
use octets::{field, number};
use refusal::Reason;
use register::{BitOrder, Checker};
use settings::settings_of;
use state::with_pels;

// Whether the frame begins with the sync.
fn sync_agrees(s: &[u8]) -> bool
    ensures { result ≡ sync_agrees s.now }
{
    number(s, 0, 24) == SYNC
}

// The check that was sent, its bits in an order.
fn check_sent(order: BitOrder, s: &[u8]) -> u64
    ensures { result ≡ check_sent order s.now }
{
    match order {
        BitOrder::LowFirst => field(s, 573, 12) as u64,
        BitOrder::HighFirst => number(s, 573, 12) as u64,
    }
}

// Whether the check sent is that of the frame's bits, where the setting says to compare.
pub fn check_agrees(checker: &Checker, s: &[u8]) -> bool
    ensures { result ≡ check_agrees checker.now.setting s.now }
{
    if checker.setting.compare {
        let sent = check_sent(checker.setting.order, s);
        checker.frame_check(s) == sent
    } else {
        true
    }
}

// The header of a data frame. Nothing of it is judged.
pub fn header(s: &[u8]) -> Header
    ensures { result ≡ header_of s.now }
{
    Header {
        sequence: number(s, 24, 2),
        count: field(s, 31, 10),
        x: field(s, 41, 12),
        black: field(s, 53, 3),
        white: field(s, 56, 3),
        state: with_pels(number(s, 59, 2)),
    }
}

// Which kind of frame a header says: a set-up frame's has the flags 00101 and then thirty ones.
pub fn kind(s: &[u8]) -> FrameKind
    ensures { result ≡ kind_of s.now }
{
    if number(s, 26, 5) != 0b00101 {
        return FrameKind::Data;
    }
    if number(s, 31, 30) != 0x3FFF_FFFF {
        return FrameKind::Data;
    }
    FrameKind::SetUp
}

// What a set-up frame says: its sequence and its settings are judged, in this order.
fn set_up(s: &[u8]) -> Result<Record, Reason>
    ensures { result ≡ set_up_of s.now }
{
    if number(s, 24, 2) != 0 {
        return Err(Reason::SequenceWrong);
    }
    match settings_of(number(s, 61, 5)) {
        Some(settings) => Ok(Record::SetUp(settings)),
        None => Err(Reason::SettingsNotAllowed),
    }
}

// What a frame of a kind says.
fn content(kind: FrameKind, s: &[u8]) -> Result<Record, Reason>
    ensures { result ≡ content_of kind s.now }
{
    match kind {
        FrameKind::SetUp => set_up(s),
        FrameKind::Data => Ok(Record::Data(header(s))),
    }
}

// A frame of a kind taken apart: sync and check are judged, in this order, then what it says.
pub fn parse(checker: &Checker, kind: FrameKind, s: &[u8]) -> Result<Record, Reason>
    ensures { result ≡ parsed checker.now.setting kind s.now }
{
    if !sync_agrees(s) {
        return Err(Reason::SyncDiffers);
    }
    if !check_agrees(checker, s) {
        return Err(Reason::CheckDiffers);
    }
    content(kind, s)
}
