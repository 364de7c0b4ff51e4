// The layout of translated files (`SPC`): the refusals 1 to 6 and 12, and where names are judged 9, 10, 11, 13 and 19 to 21.

#![tactic(auto)]

pub mod layout;
