// The bench machine: runs.

#![tactic(auto)]

pub mod machine;
