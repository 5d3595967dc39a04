// What is promised of `from_predicate`. Definitions in specs/, theorems in proofs/. There is no code, and a crate needs a function.
#![tactic(auto)]

pub fn nothing() {}
