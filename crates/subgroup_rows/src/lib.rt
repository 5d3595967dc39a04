// Fills the rows of a subgroup's table with the overgroup's products, each numbered as it appears, as subgroup_action.rs does. This crate has no
// public calls: `subgroup` has them.
#![tactic(auto)]

pub mod inner;
