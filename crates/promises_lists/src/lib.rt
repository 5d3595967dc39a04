// A library with no function of its own: what the calls over lists promise of accepted factors and products is proved in proofs/.
#![tactic(auto)]

pub fn nothing() {}
