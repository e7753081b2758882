// What is found at a place of a file, each record judged by itself, and the place then.
#![tactic(auto)]

ghost use Rattle.std.specs.Prelude.{◌≡◌};
ghost use Rattle.record_found.specs.Found.{found_in, found_at, step_at};

use frame::Record;
use records::{Kind, due_at, frame_of};
use refusal::{Reason, Refusal, at_record};
use register::{Check, Checker};

// What is found where a record is due: a set-up with its settings or a data header, or the end record.
#[derive(Clone, Copy)]
pub enum Found {
    Record(Record),
    End,
}

// What is found at a place, and the place then.
#[derive(Clone, Copy)]
pub struct WalkStep {
    pub found: Result<Found, Refusal>,
    pub next: usize,
}

// A frame taken apart, of record k.
fn found_in(taken: Result<Record, Reason>, k: usize) -> Result<Found, Refusal>
    ensures { result ≡ found_in taken k }
{
    match taken {
        Ok(record) => Ok(Found::Record(record)),
        Err(reason) => Err(at_record(reason.into(), k)),
    }
}

// What is found at octet `at`.
fn found_at(checker: &Checker, file: &[u8], at: usize) -> Result<Found, Refusal>
    ensures { result ≡ found_at checker.now.setting file.now at }
{
    let k = at / 76;
    match due_at(file, at) {
        Err(reason) => Err(at_record(reason.into(), k)),
        Ok(Kind::End) => Ok(Found::End),
        Ok(Kind::Frame(frame)) => found_in(frame_of(checker, file, at, frame).taken, k),
    }
}

// A walker's step from octet `at`. A check setting that is not allowed is refused before all. The place goes on behind a record, and stays
// at the end record and at a refusal.
pub fn step_at(file: &[u8], at: usize, c: Check) -> WalkStep
    ensures { result ≡ step_at c file.now at }
{
    let Some(checker) = Checker::new(c) else {
        return WalkStep {
            found: Err(Reason::RequestNotAllowed.into()),
            next: at,
        };
    };
    match found_at(&checker, file, at) {
        Ok(Found::Record(record)) => WalkStep {
            found: Ok(Found::Record(record)),
            next: at + 76,
        },
        Ok(Found::End) => WalkStep {
            found: Ok(Found::End),
            next: at,
        },
        Err(refusal) => WalkStep {
            found: Err(refusal),
            next: at,
        },
    }
}
