// From abstract_group.rs: the letters of recorded words, read and written five at a time. All of it is in `inner`, for
// the layers above.
#![tactic(auto)]

pub mod inner;
