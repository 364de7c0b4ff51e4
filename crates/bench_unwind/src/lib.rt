// Return and raise: what leaves frames.

#![tactic(auto)]

pub mod unwind;
