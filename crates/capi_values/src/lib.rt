// Turns handles and answers into numbers: what the crates of C functions share. This crate has no public calls.
#![tactic(auto)]

pub mod inner;
