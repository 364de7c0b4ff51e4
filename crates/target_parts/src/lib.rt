// The parts of translated files: lengths of 16 bits, levels, the ends of parts and what follows a node.

#![tactic(auto)]

pub mod parts;
