// The values of options.
use register::BitOrder;
use settings::Paper;
use std::rt::Env;
use system::arguments::argument;

// A number that no option allows. A larger one is taken for it.
const MOST: u64 = 1_000_000_000;

// The number that a word says, in digits alone, or none.
fn number_of(word: &[u8]) -> Option<u64> {
    if word.is_empty() {
        return None;
    }
    let mut value: u64 = 0;
    for c in word {
        if !matches!(*c, b'0'..=b'9') {
            return None;
        }
        value = (10 * value + (*c - b'0') as u64).min(MOST);
    }
    Some(value)
}

// What argument i says, read so.
fn value_at<T, F>(env: &impl Env, i: usize, read: F) -> Option<T>
where
    F: FnOnce(&[u8]) -> Option<T>,
    requires { F.IsAlwaysCallable read }
{
    let mut space = [0u8; 4096];
    let n = argument(env, i, &mut space);
    read(&space[..n])
}

// The number that argument i says.
pub fn number_at(env: &impl Env, i: usize) -> Option<u64> {
    value_at(env, i, number_of)
}

// A paper by its length in inches. `check_of` is only of the same form: it has the words of another type.
fn paper_of(word: &[u8]) -> Option<Paper> {
    match word {
        b"11" => Some(Paper::Eleven),
        b"14" => Some(Paper::Fourteen),
        b"5.5" => Some(Paper::FiveAndHalf),
        _ => None,
    }
}

// The paper that argument i says.
pub fn paper_at(env: &impl Env, i: usize) -> Option<Paper> {
    value_at(env, i, paper_of)
}

// A check setting that has a name. `none` is not compared.
#[derive(Clone, Copy)]
pub enum NamedCheck {
    Scope,
    Rfc,
    Uncompared,
}

fn check_of(word: &[u8]) -> Option<NamedCheck> {
    match word {
        b"scope" => Some(NamedCheck::Scope),
        b"rfc" => Some(NamedCheck::Rfc),
        b"none" => Some(NamedCheck::Uncompared),
        _ => None,
    }
}

// The check setting that argument i names.
pub fn check_at(env: &impl Env, i: usize) -> Option<NamedCheck> {
    value_at(env, i, check_of)
}

fn order_of(word: &[u8]) -> Option<BitOrder> {
    match word {
        b"low" => Some(BitOrder::LowFirst),
        b"high" => Some(BitOrder::HighFirst),
        _ => None,
    }
}

// The order of a check's bits that argument i names.
pub fn order_at(env: &impl Env, i: usize) -> Option<BitOrder> {
    value_at(env, i, order_of)
}
