// Finds the inverse of an element in a product that stands in a lent list. This crate has no public calls: `capi_group` has them.
#![tactic(auto)]

pub mod inner;
