// The words of the tool's command line: its commands, and the values of its options.
#![tactic(auto)]

pub mod command;
pub mod values;
