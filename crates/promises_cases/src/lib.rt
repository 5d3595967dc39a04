// Theorems only: the cases of document 01 that are marked P, one statement over the definitions. A crate needs a function, so there is one.
#![tactic(auto)]

pub fn nothing() {}
