// Chooses the elements that a predicate gives as generators of a subgroup, in the order of the overgroup, as subgroup_action.rs does. This crate has
// no public calls: `subgroup_predicate` has the call.
#![tactic(auto)]

pub mod inner;
