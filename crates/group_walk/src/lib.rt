// Walks a word in a product: the start is split once, each letter leads on in the digit of its factor, and the digits are joined at the end. This crate
// has no public calls: `group` has them.
#![tactic(auto)]

pub mod inner;
