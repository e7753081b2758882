// The state of a column: its two pels, top pel first.
#![tactic(auto)]

ghost use Rattle.std.specs.Prelude.{◌≡◌, ◌<◌};
ghost use Rattle.state.specs.Pels.{pels_of, state_of};

// The solid states: both pels white, both black.
#[derive(Clone, Copy)]
pub enum Solid {
    WW,
    BB,
}

// The mixed states: white over black, black over white.
#[derive(Clone, Copy)]
pub enum Mixed {
    WB,
    BW,
}

#[derive(Clone, Copy)]
pub enum State {
    Solid(Solid),
    Mixed(Mixed),
}

// A state's two pels as a number of two bits, the top pel first: its form on the wire.
pub fn pels(state: State) -> u8
    ensures { (result ≡ pels_of state) × (result < 4) }
{
    match state {
        State::Solid(Solid::WW) => 0,
        State::Mixed(Mixed::WB) => 1,
        State::Mixed(Mixed::BW) => 2,
        State::Solid(Solid::BB) => 3,
    }
}

// The state with these pels; of a number above 3 the last one.
pub fn with_pels(n: usize) -> State
    ensures { result ≡ state_of n }
{
    match n {
        0 => State::Solid(Solid::WW),
        1 => State::Mixed(Mixed::WB),
        2 => State::Mixed(Mixed::BW),
        _ => State::Solid(Solid::BB),
    }
}
