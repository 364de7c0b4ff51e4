// The expressions of translated files and the bodies of functions: the refusals 3, 5, 6 and 12, and where names are judged 9, 10, 11, 13 and 19 to 21.

#![tactic(auto)]

pub mod expressions;
