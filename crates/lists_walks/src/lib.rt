// Products at many places at once, by walks that go on side by side. All of it is in `inner`, for the layers above.
#![tactic(auto)]

pub mod inner;
