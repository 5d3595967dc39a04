// From abstract_group.rs: the build of a factor from a lent list of composed numbers. All of it is in `inner`, for the
// layers above.
#![tactic(auto)]

pub mod inner;
