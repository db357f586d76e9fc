// The recorder's public calls.
#![tactic(auto)]

pub mod decisions;
pub mod defaults;
pub mod setup;
pub mod strings;
