// Walks a word on the rows of a stored image, two bytes a successor. This crate has no public calls: `image` has them.
#![tactic(auto)]

pub mod inner;
