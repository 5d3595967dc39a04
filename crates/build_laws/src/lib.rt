// What any build comes to, whatever its numbers come from: definitions in specs/, theorems in proofs/. There is no
// code; the one function is here because a crate needs one.
#![tactic(auto)]

pub fn nothing() {}
