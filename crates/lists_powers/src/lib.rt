// Powers at many places at once, all of them squared and multiplied in step. All of it is in `inner`, for the layers above.
#![tactic(auto)]

pub mod inner;
