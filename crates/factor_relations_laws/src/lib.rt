// What the tests of a list of orders, and 13, say of a table that the checks let through: definitions in specs/, theorems in proofs/. There is no code, and
// a crate needs a function.
#![tactic(auto)]

pub fn nothing() {}
