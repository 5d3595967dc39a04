// Answers the period of a product's element: `period` of group.rs.
#![tactic(auto)]

pub mod inner;
