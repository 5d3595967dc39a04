// Theorems only: what the calls with names promise, stated in specs/ and proved in proofs/. A crate needs a function, so there is one.
#![tactic(auto)]

pub fn nothing() {}
