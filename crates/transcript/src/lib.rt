// Lines of a transcript: key kinds, and views that answer a line's key by its number.
#![tactic(auto)]

pub mod keys;
pub mod show;
pub mod stamps;
pub mod view;
