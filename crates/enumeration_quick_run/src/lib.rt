// The quick enumeration, by closed loops: quicker than todd_coxeter.rs, and with the same table where it gives one that
// passes the checks.
#![tactic(auto)]

pub mod inner;
