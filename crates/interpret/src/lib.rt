// Operations read from a change buffer and done.
#![tactic(auto)]

pub mod attributes;
pub mod creation;
pub mod inner;
pub mod operands;
