// The tracker of windows over a growing transcript.
#![tactic(auto)]

mod asking;
mod calls;
mod checks;
mod edges;
pub mod filing;
mod groups;
mod laws;
pub mod meeting;
pub mod opening;
mod reading;
pub mod roll;
pub mod slip;
mod standing;
mod table;
pub mod tracker;
mod walk;
