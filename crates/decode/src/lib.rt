// Operations of a change buffer as values, and in words.
#![tactic(auto)]

pub mod error;
pub mod listing;
pub mod operand;
pub mod operation;
mod table;
pub mod words;
