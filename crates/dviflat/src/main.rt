// The program: what it does is all in the library `cli`.
#![tactic(auto)]

use std::process::ExitCode;

fn main(rt: HostRuntime) -> ExitCode {
    cli::run(&rt)
}
