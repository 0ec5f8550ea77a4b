// Chooses the command that the arguments ask for. The program's `main` calls `run` alone.
#![tactic(auto)]

mod named;
mod usage;

use named::{Command, asks_help};
use std::env;
use std::process::ExitCode;
use terminal::{Ended, Failure};
use usage::Usage;

// Does what the arguments ask, and answers with the status that the program ends with. A failure is told on standard error.
pub fn run(rt: &HostRuntime) -> ExitCode {
    let ended = arguments(rt).and_then(|words| obey(rt, words.as_slice()));
    match ended {
        Ok(ended) => ended.status().into(),
        Err(failure) => {
            let _ = eprintln!(rt; "dviflat: {failure}");
            ExitCode::FAILURE
        }
    }
}

fn arguments(rt: &HostRuntime) -> Result<Vec<String>, Failure> {
    Ok(env::args(rt)?.skip(1).collect(rt.alloc())?)
}

// Does what these words ask, the first of which names a command.
pub fn obey(rt: &HostRuntime, words: &[String]) -> Result<Ended, Failure> {
    let [first, rest @ ..] = words else {
        return Ok(misused(rt));
    };
    let Some(command) = Command::named(first.as_str()) else {
        return Ok(misused(rt));
    };
    if asks_help(rest) {
        return show_usage(rt, command);
    }
    match command {
        Command::Faces => inspect::show_faces(rt, rest),
        Command::Character => inspect::show_character(rt, rest),
        Command::Pages => inspect::show_pages(rt, rest),
        Command::Fonts => inspect::show_fonts(rt, rest),
        Command::Marks => copying::show_marks(rt, rest),
        Command::Flatten => copying::write_flat(rt, rest),
        Command::Replay => replay::run_script(rt, rest),
        Command::Help => show_help(rt, rest),
    }
}

// How the program is called, or the command that the words name.
fn show_help(rt: &HostRuntime, words: &[String]) -> Result<Ended, Failure> {
    match words {
        [] => {
            rt.print(Usage)?;
            Ok(Ended::Done)
        }
        [word, ..] => match Command::named(word.as_str()) {
            Some(command) => show_usage(rt, command),
            None => Ok(misused(rt)),
        },
    }
}

fn show_usage(rt: &HostRuntime, command: Command) -> Result<Ended, Failure> {
    rt.print(command.usage())?;
    Ok(Ended::Done)
}

// No command, or an unknown one: the user is shown how the program is called.
fn misused(rt: &HostRuntime) -> Ended {
    let _ = eprint!(rt; "{Usage}");
    Ended::Misused
}
