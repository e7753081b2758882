// What the programs ask of the system: their arguments, octets read as far as there is room, and the system's words for a failure.
#![tactic(auto)]

pub mod arguments;
pub mod failure;
pub mod input;
