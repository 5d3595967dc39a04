// What every call that makes a factor does: it tests what it is lent (4), ends its build (8 to 12), and answers with a handle.
#![tactic(auto)]

pub mod inner;
