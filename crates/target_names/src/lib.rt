// The names in a node of a translated file: refusals 9, 10, 11, 13 and 19 to 21.

#![tactic(auto)]

pub mod names;
