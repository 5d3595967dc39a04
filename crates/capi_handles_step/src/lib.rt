// Takes a step, or finds a generator, in a product that stands in a lent list. This crate has no public calls: `capi_group` has them.
#![tactic(auto)]

pub mod inner;
