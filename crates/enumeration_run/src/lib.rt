// From todd_coxeter.rs, `construct_group`: the run of an enumeration from pair orders, place by place. All of it is in
// `inner`, for the layers above.
#![tactic(auto)]

pub mod inner;
