// The hashed index: from 1 to 65,536 places, looked up from the id modulo their number.
#![tactic(auto)]

pub mod hashed;
mod probe;
