// From abstract_group.rs: quick walks along recorded words, by the numbers in the rows. All of it is in `inner`, for
// the layers above.
#![tactic(auto)]

pub mod inner;
