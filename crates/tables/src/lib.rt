// The tables of a recorder: records of spans and segments, the rows that belong to them, and when all is in order.
#![tactic(auto)]

pub mod order;
pub mod record;
pub mod reset;
pub mod segment;
pub mod settings;
pub mod span;
pub mod tables;
