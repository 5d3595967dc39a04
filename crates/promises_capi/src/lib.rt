// Theorems only, in proofs/: the C functions and the listing have one answer each. A crate needs a function, so there is one.
#![tactic(auto)]

pub fn nothing() {}
