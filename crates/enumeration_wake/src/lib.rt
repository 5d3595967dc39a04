// From todd_coxeter.rs: what one woken copy of a relation row gives, which is a new step, a fact, or it waits again;
// and copies that stand alike go on together. All of it is in `inner`, for the layers above.
#![tactic(auto)]

pub mod inner;
