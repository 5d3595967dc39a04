// The groups of pair orders as Coxeter groups: definitions in specs/, theorems in proofs/. There is no code, and a crate needs a function.
#![tactic(auto)]

pub fn nothing() {}
