// From builder.rs: what is tested before a step of a build is stored. All of it is in `inner`, for the builder's calls.
#![tactic(auto)]

pub mod inner;
