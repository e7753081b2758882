// Why a call refuses its input, and where: the one list of numbers that every public call answers from.
#![tactic(auto)]

ghost use Rattle.std.specs.Prelude.{◌≢◌, ◌≡◌, ◌<◌};
ghost use Rattle.refusal.specs.Fault.{fault_of, no_reading, at_record};
ghost use Rattle.refusal.specs.Number.{number_of};
ghost use Rattle.refusal.specs.declared.Reason.TheVariants.{ListOutside};

// A case for each number of the list, in the list's order. 21 isn't used, and 23 and 24 are not given yet.
#[derive(Clone, Copy, PartialEq, Eq)]
pub enum Reason {
    RecordIncomplete,
    RecordUnknown,
    RecordOutOfPlace,
    SyncDiffers,
    CheckDiffers,
    SettingsNotAllowed,
    SequenceWrong,
    CountTooLarge,
    SizeNotAllowed,
    HeaderDisagrees,
    NoReading,
    FrameAfterClosingWord,
    PageEndsOpen,
    ColumnsNotWholePairs,
    TooManyLines,
    OutputTooShort,
    BitmapSizeNotAllowed,
    BitmapContentNotAllowed,
    LastColumnNotEncodable,
    RequestNotAllowed,
    RunWordsNotAllowed,
    ListOutside,
}

// What is wrong with an input: the reason, and a bit. Of a data part that has no reading it is the length of its longest beginning that has one;
// with every other reason it is 0.
#[derive(Clone, Copy)]
pub struct Fault {
    pub reason: Reason,
    pub bit: usize,
}

// A refusal: a fault, and the index of the record that it falls at, from 0 (0 where there are no records).
#[derive(Clone, Copy)]
pub struct Refusal {
    pub reason: Reason,
    pub bit: usize,
    pub record: usize,
}

// The fault of a reason that no bit goes with: any but `NoReading`.
impl From<Reason> for Fault {
    ghost from_gives = { λ reason fault. fault ≡ fault_of reason };

    fn from(reason: Reason) -> Fault {
        Fault { reason, bit: 0 }
    }
}

// The fault of a data part that has no reading, and whose longest beginning that has one has so many bits.
pub fn no_reading(bit: usize) -> Fault
    ensures { result ≡ no_reading bit }
{
    Fault {
        reason: Reason::NoReading,
        bit,
    }
}

// A fault at a record: every refusal is made here.
pub fn at_record(fault: Fault, record: usize) -> Refusal
    ensures { result ≡ at_record fault «record» }
{
    Refusal {
        reason: fault.reason,
        bit: fault.bit,
        record,
    }
}

// A fault of what has no records falls at record 0.
impl From<Fault> for Refusal {
    ghost from_gives = { λ fault refusal. refusal ≡ at_record fault 0 };

    fn from(fault: Fault) -> Refusal {
        at_record(fault, 0)
    }
}

impl From<Reason> for Refusal {
    ghost from_gives = { λ reason refusal. refusal ≡ at_record (fault_of reason) 0 };

    fn from(reason: Reason) -> Refusal {
        at_record(Fault::from(reason), 0)
    }
}

// The number that the list gives a reason.
impl From<Reason> for u64 {
    ghost from_gives = { λ reason n. (n ≡ number_of reason) × (n < 26) × (reason ≢ ListOutside → n < 23) };

    fn from(reason: Reason) -> u64 {
        match reason {
            Reason::RecordIncomplete => 1,
            Reason::RecordUnknown => 2,
            Reason::RecordOutOfPlace => 3,
            Reason::SyncDiffers => 4,
            Reason::CheckDiffers => 5,
            Reason::SettingsNotAllowed => 6,
            Reason::SequenceWrong => 7,
            Reason::CountTooLarge => 8,
            Reason::SizeNotAllowed => 9,
            Reason::HeaderDisagrees => 10,
            Reason::NoReading => 11,
            Reason::FrameAfterClosingWord => 12,
            Reason::PageEndsOpen => 13,
            Reason::ColumnsNotWholePairs => 14,
            Reason::TooManyLines => 15,
            Reason::OutputTooShort => 16,
            Reason::BitmapSizeNotAllowed => 17,
            Reason::BitmapContentNotAllowed => 18,
            Reason::LastColumnNotEncodable => 19,
            Reason::RequestNotAllowed => 20,
            Reason::RunWordsNotAllowed => 22,
            Reason::ListOutside => 25,
        }
    }
}
