// Multiplies in an overgroup that is one factor, for the build of a subgroup. A product with an element of one letter is a step, so the letters of
// the generators are found once. This crate has no public calls: `subgroup` has them.
#![tactic(auto)]

pub mod inner;
