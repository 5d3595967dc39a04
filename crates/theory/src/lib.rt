// The meaning of groups, words, the numbering rule and presentations, after Coxeter and Moser: definitions in specs/,
// theorems in proofs/. There is no code; the one function is here because a crate needs one.
#![tactic(auto)]

pub fn nothing() {}
