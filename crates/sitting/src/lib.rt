// What the calls of a tracker answer, and the law over whole sittings: definitions and proofs, no code of
// their own.
#![tactic(auto)]

pub mod laws;
