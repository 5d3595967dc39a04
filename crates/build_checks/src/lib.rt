// The checks of builder.rs and egg.rs on a table that was built to its end, and those that document 01 adds: refusals 8
// to 12.
#![tactic(auto)]

pub mod inner;
