// What the programs share: what their arguments ask for, reads of standard input, and what is said where a read or a write fails.
#![tactic(auto)]

pub mod arguments;
pub mod complaints;
pub mod input;
