// Order 2: what a question over lists answers.
#![tactic(auto)]

use egg::Refusal;

pub mod inner;

// A place of the lists, counted from 0, and what the single call says there.
#[derive(Clone, Copy)]
pub struct RefusedPlace {
    pub place: usize,
    pub why: Refusal,
}

// Why a question over lists answers nothing: the first place that is refused; or the lists themselves are refused, before
// any place is looked at.
#[derive(Clone, Copy)]
pub enum ListRefusal {
    RefusedAt(RefusedPlace),
    ListsRefused(Refusal),
}
