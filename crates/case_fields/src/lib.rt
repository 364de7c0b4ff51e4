// What the test programs share and a contract can say: the fields of a record, and the words lent to a machine.

#![tactic(auto)]

pub mod record;
pub mod words;
