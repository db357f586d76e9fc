// The small index: for the common case of one id at a time, and at most 256.
#![tactic(auto)]

pub mod segment;
