// Looks after the two sides of a subgroup's value, which are products of factors: whether they fit and are within their limits, how many elements and
// which generators they have, and further factors multiplied on. From subgroup_action.rs. This crate has no public calls: `subgroup` has them.
#![tactic(auto)]

pub mod inner;
