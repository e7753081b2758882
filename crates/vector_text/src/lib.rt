// The text that the records of the appendix stand in, and what is shown of a record's fields, in words and numbers.
#![tactic(auto)]

pub mod fields;
pub mod show;
pub mod text;
