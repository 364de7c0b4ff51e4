// The tags of translated files (`SPC`): the node at an offset.

#![tactic(auto)]

pub mod tag;
