// From abstract_group.rs: products, inverses and conjugates of elements by walking recorded words. All of it is in
// `inner`, for the layers above.
#![tactic(auto)]

pub mod inner;
