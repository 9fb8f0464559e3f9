// What a frame means over a list of lines: the clause's window, and the laws that hold of it.
#![tactic(auto)]

pub mod laws;
pub mod options;
