// The layout of procedure files (`SPF`): the ends of blocks and functions, the refusals 1 to 6.

#![tactic(auto)]

pub mod layout;
