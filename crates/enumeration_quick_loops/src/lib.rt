// Of the quick enumeration: where a closed loop, a pair relation of which all other steps are known, says that a step
// leads. The Rust has nothing of the kind.
#![tactic(auto)]

pub mod inner;
