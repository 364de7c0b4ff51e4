// The registers of the bench machine, and what makes a frame.

#![tactic(auto)]

pub mod call;
pub mod registers;
