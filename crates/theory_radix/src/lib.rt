// Numbers whose digits have different ranges, and common divisors and multiples: by these a product numbers its
// elements and finds its periods. Definitions are in specs/, theorems in proofs/. There is no code; the one function is
// here because a crate needs one.
#![tactic(auto)]

pub fn nothing() {}
