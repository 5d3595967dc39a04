// From todd_coxeter.rs, `update_with_fact`: each new step of the table wakes the copies of relation rows that wait for
// it. All of it is in `inner`, for the layers above.
#![tactic(auto)]

pub mod inner;
