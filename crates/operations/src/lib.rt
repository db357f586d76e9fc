// The operations of a flush, once their operands are read.
#![tactic(auto)]

pub mod inner;
pub mod values;
