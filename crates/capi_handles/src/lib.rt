// Reads products that stand in a lent list, five numbers a handle: what the crates of C functions on products and subgroups share. This crate has no
// public calls.
#![tactic(auto)]

pub mod inner;
