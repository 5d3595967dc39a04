// From builder.rs: the inverse of each element, written into a table that was built to its end, and refusal 10.
#![tactic(auto)]

pub mod inner;
