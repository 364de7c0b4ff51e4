// What the test programs share: reading a record, and printing answers.

#![tactic(auto)]

pub mod input;
pub mod print;
pub mod records;
pub mod words;
