// Answers the questions that a product answers factor by factor, and turns its elements into digits in a lent list and back. From group.rs.
#![tactic(auto)]

pub mod inner;
