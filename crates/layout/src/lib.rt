// The layout of a change buffer: its operands, its reads and their refusals, its operations.
#![tactic(auto)]

pub mod buffer;
pub mod operation;
pub mod utils;
