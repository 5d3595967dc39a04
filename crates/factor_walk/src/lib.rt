// Walks a word of the caller's own letters in a factor. This crate has no public calls: `factor` has them.
#![tactic(auto)]

pub mod inner;
