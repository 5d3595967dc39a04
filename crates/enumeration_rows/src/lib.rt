// From todd_coxeter.rs, its relation tables: rows with a gap, and the lists in which they wait. All of it is in
// `inner`, for the layers above.
#![tactic(auto)]

pub mod inner;
