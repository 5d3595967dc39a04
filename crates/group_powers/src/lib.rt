// Answers powers of a product's element: `powi` of group.rs.
#![tactic(auto)]

pub mod inner;
