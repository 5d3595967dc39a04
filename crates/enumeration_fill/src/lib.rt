// From todd_coxeter.rs, `fill`: the ends of a row walk into its gap as far as steps are known; and which rows move
// alike. All of it is in `inner`, for the layers above.
#![tactic(auto)]

pub mod inner;
