// What an accepted factor is, and what the answers about it mean: statements in specs/, theorems in proofs/. There is
// no code; the one function is here because a crate needs one.
#![tactic(auto)]

pub fn nothing() {}
