// The bytes that operations and blocks become, written into lent output.

#![tactic(auto)]

pub mod bytes;
pub mod jumps;
