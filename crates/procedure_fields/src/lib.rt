// The operation that stands at an offset of a procedure file, by its form: for the bench and the translator, which stand at operations alone.

#![tactic(auto)]

pub mod fields;
