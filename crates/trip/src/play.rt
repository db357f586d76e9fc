// A script's calls, made one after another on a recorder of its own, each printed with its answer.
use crate::run::Recorder;
use crate::script::{BadScript, Line, Script};
use std::fs;

pub fn play(rt: &HostRuntime, path: &str) -> Result<(), BadScript> {
    let heap = rt.alloc();
    let text = fs::read_to_string(rt, path)?;
    let script = Script::parse(heap, text.as_str())?;
    let mut recorder = Recorder::new(heap, script.sizes)?;
    for (i, line) in script.lines().enumerate() {
        let Some(Line { text, call, .. }) = Line::parse(heap, i, line)? else {
            continue;
        };
        match recorder.answer(&call) {
            Ok(answer) => println!(rt; "{text:<44}  {answer}")?,
            Err(refusal) => println!(rt; "{text:<44}  refused: {refusal}")?,
        }
    }
    Ok(())
}
