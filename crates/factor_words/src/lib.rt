// From abstract_group.rs: the recorded words of elements, their lengths and letters. All of it is in `inner`, for the
// layers above.
#![tactic(auto)]

pub mod inner;
