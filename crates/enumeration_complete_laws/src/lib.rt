// The enumeration of a group that the orders present and that fits the room never fails: theorems in proofs/. There is no code, and a crate needs a function.
#![tactic(auto)]

pub fn nothing() {}
