// The program `dviflat` once more, since a program is run once with the same words each time: here over a script.
#![tactic(auto)]

use std::process::ExitCode;

fn main(rt: HostRuntime) -> ExitCode {
    cli::run(&rt)
}
