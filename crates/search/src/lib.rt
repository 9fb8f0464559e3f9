// Searches over a transcript view, from which windows are reckoned.
#![tactic(auto)]

pub mod explain;
pub mod groups;
pub mod opening;
pub mod order;
pub mod rows;
pub mod sorted;
pub mod walks;
