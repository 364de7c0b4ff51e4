// Procedure files (`SPF`): the checker, and the table by which machines and translator read an accepted file.

#![tactic(auto)]

pub mod check;
mod fill;
pub mod loaded;
pub mod table;
