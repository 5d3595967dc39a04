// The waiting lists of the enumeration as lists of copies, and that its machine has forgotten no row when no fact is left:
// definitions in specs/, theorems in proofs/. There is no code; the one function is here because a crate needs one.
#![tactic(auto)]

pub fn nothing() {}
