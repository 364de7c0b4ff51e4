// The node that stands at an offset of a translated file, by its tag: for a machine, which stands at nodes alone.

#![tactic(auto)]

pub mod fields;
