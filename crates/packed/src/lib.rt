// Packed transcripts: one line's bytes, the scan for the lines' places, and the view over them.
#![tactic(auto)]

pub mod line;
pub mod reads;
pub mod scan;
pub mod view;
