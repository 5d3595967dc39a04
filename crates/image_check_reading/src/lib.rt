// Reads the rows of an image into a table over lent bytes: the table's cells, the stores of a build, and the reading. This crate has no public calls:
// `image` has them.
#![tactic(auto)]

pub mod inner;
