// The program `trip`: prints the operations of change buffers that stand in files as hexadecimal text, and makes the calls of
// scripts.
#![tactic(auto)]

mod command;
mod file;
mod play;
mod run;
mod script;

use command::Failed;
use std::env;
use std::process::ExitCode;

fn main(rt: HostRuntime) -> ExitCode {
    match obey_words(&rt) {
        Ok(()) => ExitCode::SUCCESS,
        Err(_failed) => ExitCode::FAILURE,
    }
}

fn obey_words(rt: &HostRuntime) -> Result<(), Failed> {
    let words: Vec<String> = env::args(rt)?.skip(1).collect(rt.alloc())?;
    command::run(rt, words.as_slice())
}
