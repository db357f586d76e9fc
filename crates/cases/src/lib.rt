#![tactic(auto)]

// Cases on the limits, run on the code. Each test is proved safe and then run.
#[cfg(test)]
mod decoding;
#[cfg(test)]
mod hexadecimal;
pub mod indexes;
pub mod layouts;
pub mod maps;
pub mod recorders;
pub mod words;
