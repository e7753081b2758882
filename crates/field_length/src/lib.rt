// The field length rule. It stands alone here, and its definition alone in specs/FieldLength.antt: the deputy registrar signs any
// change to either (docs/FIELD-LENGTH-RULE.md).
#![tactic(auto)]

ghost use Rattle.std.specs.Prelude.{◌≡◌, ◌≤◌};
ghost use Rattle.field_length.specs.FieldLength.{length_after_ones, tested, limit_of, length_after_closing};

use position::LAST_COLUMN;

// Which word of its run, in this frame, a word is.
#[derive(Clone, Copy)]
pub enum Nth {
    First,
    Later,
}

// The length after an all-ones word of n bits.
pub fn after_ones(n: usize) -> usize
    ensures { result ≡ length_after_ones n }
{
    if n < 7 { n + 1 } else { 7 }
}

// Whether a closing word is tested: it is its run's only word in this frame, or the run ends at the right edge. X is that behind the word.
fn is_tested(word: Nth, x: usize) -> bool
    ensures { result ≡ tested word x }
{
    match word {
        Nth::First => true,
        Nth::Later => x == LAST_COLUMN,
    }
}

// A word of n bits that is tested has the length fall by one when its value is below this.
fn limit(n: usize) -> usize
    requires { n ≤ 7 }
    ensures { result ≡ limit_of n }
{
    match n {
        3 => 4,
        4 => 4,
        5 => 8,
        6 => 16,
        7 => 32,
        _ => 0,
    }
}

// The length after a closing word of n bits and of value v, with X behind its columns.
pub fn after_closing(word: Nth, n: usize, v: usize, x: usize) -> usize
    requires { n ≤ 7 }
    ensures { result ≡ length_after_closing word n v x }
{
    if !is_tested(word, x) {
        return n;
    }
    if v < limit(n) { n - 1 } else { n }
}
