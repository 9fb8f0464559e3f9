// Frames of window clauses: refusals, units and bounds, frames, and the reader of clause text.
#![tactic(auto)]

pub mod bound;
pub mod clause;
mod errors;
pub mod frame;
mod methods;
mod reader;
pub mod refusal;
pub mod show;
mod turning;
