// From subgroup_action.rs: numbering in order of first appearance, into a table and two maps. All of it is in `inner`,
// for the layers above.
#![tactic(auto)]

pub mod inner;
