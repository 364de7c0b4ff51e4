// The names in procedure files (`SPF`): the refusals 7 to 10, block by block.

#![tactic(auto)]

pub mod names;
