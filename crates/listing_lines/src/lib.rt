// Writes the listing's text: decimals, the lines of a table with their head, and refusals. This crate has no public calls: `listing_page` has the
// call.
#![tactic(auto)]

pub mod inner;
