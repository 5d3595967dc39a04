// Refusals 2 and 3 of a list of pair orders, and 13, which document 01 adds: whether their relations hold in a table.
#![tactic(auto)]

pub mod inner;
