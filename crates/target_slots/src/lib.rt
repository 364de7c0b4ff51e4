// The slots of translated files: one that is bound or read, and the kinds that slots have.

#![tactic(auto)]

pub mod slots;
