// What pair orders are accepted, and by which numbers others are refused: theorems in proofs/. There is no code, and a crate needs a function.
#![tactic(auto)]

pub fn nothing() {}
