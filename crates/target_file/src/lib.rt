// Translated files (`SPC`): bytes and code, the checker, the table of function bodies.

#![tactic(auto)]

pub mod check;
pub mod loaded;
pub mod table;
mod walk;
