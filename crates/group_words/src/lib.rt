// Answers the words of a product's elements, their lengths and their letters. From group.rs.
#![tactic(auto)]

pub mod inner;
