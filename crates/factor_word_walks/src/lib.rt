// From abstract_group.rs: walks along recorded words, letter by letter, forward and back. All of it is in `inner`, for
// the layers above.
#![tactic(auto)]

pub mod inner;
