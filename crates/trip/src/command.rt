// What the words of the command line ask for.
use crate::{file, play};
use std::alloc::AllocError;
use std::{fmt, io};

const USAGE: &str =
    "trip decode FILE...   prints every operation of each file's change buffer, one line each
trip run SCRIPT...    makes the calls of each script on a recorder of its own, and prints the answers
trip help             prints this
trip ... then ...     one command after another

A FILE holds the bytes of a change buffer as hexadecimal text: two digits a byte, blanks
between bytes as you like, and comments from '#' to the line's end.

A SCRIPT has a call on each line; comments as above. The first call is the set-up.
  setup SERVICE LANGUAGE PID SPANS SEGMENTS STRINGS   sizes of the tables last
  string NUMBER TEXT, evict NUMBER                    the string table
  defaults KEY=VALUE...                               pairs that every new span gets
  decisions SEGMENT RULE LIMIT AGENT                  each a number, or - for none
  span ID, segment ID, handed NUMBER, numbers         questions";

// A message was printed, or nothing could be; the program ends with status 1.
// It holds nothing of what it comes from, so its `From` is by hand.
#[derive(Drop)]
pub struct Failed;

impl From<io::Error> for Failed {
    fn from(_e: io::Error) -> Failed {
        Failed
    }
}

impl From<AllocError> for Failed {
    fn from(_e: AllocError) -> Failed {
        Failed
    }
}

// The commands of the line, which stand between the words `then`, up to one that fails.
pub fn run(rt: &HostRuntime, words: &[String]) -> Result<(), Failed> {
    for command in words.split(|word| word.as_str() == "then") {
        obey(rt, command)?;
    }
    Ok(())
}

fn obey(rt: &HostRuntime, words: &[String]) -> Result<(), Failed> {
    let Some((command, paths)) = words.split_first() else {
        return usage(rt);
    };
    match command.as_str() {
        "help" => usage(rt),
        "decode" => each(rt, paths, "decode wants a file", file::decode),
        "run" => each(rt, paths, "run wants a script", play::play),
        other => {
            eprintln!(rt; "trip: '{other}' is no command; 'trip help' lists them")?;
            Err(Failed)
        }
    }
}

fn usage(rt: &HostRuntime) -> Result<(), Failed> {
    println!(rt; "{USAGE}")?;
    Ok(())
}

// Every path in turn, also after one that fails; each that does gets a message. With no path it says what is wanted.
fn each<E: fmt::Display + Drop, F: Fn(&HostRuntime, &str) -> Result<(), E>>(
    rt: &HostRuntime,
    paths: &[String],
    wanted: &str,
    act: F,
) -> Result<(), Failed>
    requires { F.IsAlwaysCallable act }
{
    if paths.is_empty() {
        eprintln!(rt; "trip: {wanted}; 'trip help' shows how")?;
        return Err(Failed);
    }
    let mut outcome = Ok(());
    for path in paths {
        let path = path.as_str();
        if let Err(trouble) = act(rt, path) {
            eprintln!(rt; "trip: {path}: {trouble}")?;
            outcome = Err(Failed);
        }
    }
    outcome
}
