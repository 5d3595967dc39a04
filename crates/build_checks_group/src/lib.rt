// Refusals 11 and 12 on a table that was built to its end: whether a group has these right steps. Document 01 adds
// both; the Rust has no such test.
#![tactic(auto)]

pub mod inner;
