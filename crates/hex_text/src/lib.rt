// Hexadecimal text with comments, as a person writes or pastes it: its bytes, or what is wrong and where.
#![tactic(auto)]

pub mod error;
pub mod position;
pub mod read;
