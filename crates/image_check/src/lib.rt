// Makes the checks of `build_checks`, `build_checks_inverses` and `build_checks_group` that a reading leaves to be made, over cells in lent bytes.
// This crate has no public calls: `image` has them.
#![tactic(auto)]

pub mod inner;
