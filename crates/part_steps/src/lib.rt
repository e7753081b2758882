// The steps of a data part: the solid-state reader and the mixed-state reader, which call each other with fewer bits left. Each goes on
// in a loop while the state stays of its kind, and notes one entry a step, its state and the number of columns that it lays; whoever
// wants columns goes over the entries.
#![tactic(auto)]

ghost use Rattle.std.specs.Prelude.{length, ◌≡◌};
ghost use Rattle.diagram.specs.Diagram.{other, cross, at, run};
ghost use Rattle.part_notes.specs.Notes.{onset};
ghost use Rattle.part_steps.specs.Steps.{Ready, ReadsSteps, rest};
ghost use Rattle.diagram.specs.Decoder.{decode_at, decode};
ghost use Rattle.field_length.specs.declared.Nth.TheVariants.{First};
ghost use Rattle.octets.specs.Bits.{bits_from};

use diagram::{Bits, Columns, End, Start};
use field_length::Nth;
use part_next::{MixedMove, SolidMove, Word, mixed_move, run_word, solid_move};
use part_notes::{PartProgress, StepsRead, note, stopped};
use state::{Mixed, Solid, State};

// Solid and mixed states are two types: a trait for the other state of each would hold the same two tables, and a law beside them.
fn other_solid(s: Solid) -> Solid
    ensures { result ≡ other s }
{
    match s {
        Solid::WW => Solid::BB,
        Solid::BB => Solid::WW,
    }
}

fn other_mixed(m: Mixed) -> Mixed
    ensures { result ≡ cross m }
{
    match m {
        Mixed::WB => Mixed::BW,
        Mixed::BW => Mixed::WB,
    }
}

// From a mixed state: moves, up to one into a solid state.
#[cycle(from_mixed_from_solid)]
fn from_mixed(
    octets: &[u8],
    from: usize,
    count: usize,
    m: Mixed,
    p: PartProgress,
    entries: &mut [u16],
) -> Result<StepsRead, Bits>
    requires { Ready (length entries.old) from count p }
    ensures { ReadsSteps count p (decode_at (at m) p.context (rest octets.now from count p)) result entries.new entries.old }
{
    let mut state = m;
    let mut q = p;
    loop {
        let taken = q.bits.0;
        if taken == count {
            return Ok(stopped(q, count, End::At(State::Mixed(state))));
        }
        let lengths = q.context.lengths;
        match mixed_move(octets, from + taken, count - taken, state) {
            Ok(MixedMove::Stay) => {
                q = note(
                    entries,
                    q,
                    State::Mixed(state),
                    Bits(1),
                    Columns(1),
                    lengths,
                );
            }
            Ok(MixedMove::Cross) => {
                state = other_mixed(state);
                q = note(
                    entries,
                    q,
                    State::Mixed(state),
                    Bits(3),
                    Columns(1),
                    lengths,
                );
            }
            Ok(MixedMove::Leave(s)) => {
                let left = note(entries, q, State::Solid(s), Bits(4), Columns(1), lengths);
                return from_solid(octets, from, count, s, left, entries);
            }
            Err(k) => return Err(Bits(taken + k.0)),
        }
    }
}

// From a solid state: the words of its run, up to a closing one, and the move out of it, up to one into a mixed state.
#[cycle(from_mixed_from_solid)]
fn from_solid(
    octets: &[u8],
    from: usize,
    count: usize,
    s: Solid,
    p: PartProgress,
    entries: &mut [u16],
) -> Result<StepsRead, Bits>
    requires { Ready (length entries.old) from count p }
    ensures { ReadsSteps count p (decode_at (run First s) p.context (rest octets.now from count p)) result entries.new entries.old }
{
    let mut word = Nth::First;
    let mut state = s;
    let mut q = p;
    loop {
        let taken = q.bits.0;
        if taken == count {
            return Ok(stopped(q, count, End::At(State::Solid(state))));
        }
        match run_word(octets, from + taken, count - taken, word, state, q.context) {
            Some(Word::Ones(w)) => {
                let l = w.lengths;
                q = note(entries, q, State::Solid(state), w.bits, w.columns, l);
                word = Nth::Later;
            }
            Some(Word::Closing(w)) => {
                let l = w.lengths;
                let c = note(entries, q, State::Solid(state), w.bits, w.columns, l);
                let behind = c.bits.0;
                match solid_move(octets, from + behind, count - behind) {
                    Some(SolidMove::ToSolid) => {
                        state = other_solid(state);
                        q = note(entries, c, State::Solid(state), Bits(1), Columns(1), l);
                        word = Nth::First;
                    }
                    Some(SolidMove::ToMixed(m)) => {
                        let left = note(entries, c, State::Mixed(m), Bits(1), Columns(1), l);
                        return from_mixed(octets, from, count, m, left, entries);
                    }
                    Some(SolidMove::Open) => return Ok(stopped(c, count, End::Open)),
                    None => return Ok(stopped(c, count, End::Closed(state))),
                }
            }
            None => return Err(Bits(taken)),
        }
    }
}

// The steps of `count` bits from bit `from` on. Where there is a reading, the first entries are its steps.
pub fn steps(
    octets: &[u8],
    from: usize,
    count: usize,
    start: Start,
    entries: &mut [u16],
) -> Result<StepsRead, Bits>
    requires { Ready (length entries.old) from count (onset start.context) }
    ensures { ReadsSteps count (onset start.context) (decode start (bits_from octets.now from count)) result entries.new entries.old }
{
    let p = PartProgress {
        bits: Bits(0),
        columns: Columns(0),
        entries: 0,
        context: start.context,
    };
    match start.state {
        State::Mixed(m) => from_mixed(octets, from, count, m, p, entries),
        State::Solid(s) => from_solid(octets, from, count, s, p, entries),
    }
}
