// A change buffer flushed into the tables.
#![tactic(auto)]

pub mod change_buffer;
pub mod inner;
pub mod operation;
