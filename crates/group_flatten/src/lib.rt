// Builds one factor that is a product, reading it by its own steps: `flatten` of group.rs.
#![tactic(auto)]

pub mod inner;
