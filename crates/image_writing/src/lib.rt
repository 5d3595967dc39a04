// Writes a stored image's bytes, two a successor, from a factor's stretch. This crate has no public calls: `image` has them.
#![tactic(auto)]

pub mod inner;
