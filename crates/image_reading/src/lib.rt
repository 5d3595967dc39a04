// Reads the rows of a stored image, two bytes a successor, into a build. This crate has no public calls: `image` has them.
#![tactic(auto)]

pub mod inner;
