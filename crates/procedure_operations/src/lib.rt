// The operations of procedure files (`SPF`): the numbers that they name, and the operation at an offset.

#![tactic(auto)]

pub mod numbers;
pub mod operation;
