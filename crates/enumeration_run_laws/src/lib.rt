// That every step which the enumeration records follows from the relations, that its runs end, and that more room does not
// change a run that is done: definitions in specs/, theorems in proofs/. There is no code; the one function is here because
// a crate needs one.
#![tactic(auto)]

pub fn nothing() {}
