// One step of the bench machine.

#![tactic(auto)]

pub mod step;
