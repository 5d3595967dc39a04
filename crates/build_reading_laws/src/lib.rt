// What a reading of composed numbers leaves in the table, and which numbers it takes: statements in specs/, theorems in
// proofs/. There is no code; the one function is here because a crate needs one.
#![tactic(auto)]

pub fn nothing() {}
