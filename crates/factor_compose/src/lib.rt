// From abstract_group.rs: products and conjugates, by as few reads as they can be had. All of it is in `inner`, for the
// layers above.
#![tactic(auto)]

pub mod inner;
