// Theorems only: each refusal in theory's words, with its first place, defined in specs/ and proved in proofs/. A crate needs a function, so there is
// one.
#![tactic(auto)]

pub fn nothing() {}
