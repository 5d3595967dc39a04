// Theorems only: the demands for composed rows and pair orders, stated in specs/ and proved in proofs/. A crate needs a function, so there is one.
#![tactic(auto)]

pub fn nothing() {}
