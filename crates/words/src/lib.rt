// The words of a frame clause: its runs of bytes other than space, each with its place.
#![tactic(auto)]

pub mod cursor;
pub mod letters;
pub mod number;
pub mod word;
