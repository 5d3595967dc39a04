// From builder.rs and abstract_group.rs: the stores of a build, and the reading of a table, one place after the other.
// All of it is in `inner`, for the layers above.
#![tactic(auto)]

pub mod inner;
