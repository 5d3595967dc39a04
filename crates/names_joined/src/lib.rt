// From group.rs: the names of a product's factors, joined. All of it is in `inner`, for the layer.
#![tactic(auto)]

pub mod inner;
