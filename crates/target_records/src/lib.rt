// What a translated file says of a record: its parameter slot, its body, its handler body and the handler parameter slot.

#![tactic(auto)]

pub mod parts;
