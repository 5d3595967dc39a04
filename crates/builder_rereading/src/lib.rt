// From builder.rs: the end of a build by steps, whose table is read again from its own successors, since steps may have
// been overwritten.
#![tactic(auto)]

pub mod inner;
