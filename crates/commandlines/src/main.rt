// The program's commands over real fonts and documents. Each line of the file `commands` is a command line, its words
// apart by single spaces; it is printed, then what the program prints for it, a failure included, and the status.
#![tactic(auto)]

use std::fs;
use terminal::{Ended, Failure};

fn main(rt: HostRuntime) -> Result<(), Failure> {
    let lines = fs::read_to_string(&rt, "commands")?;
    for line in lines.as_str().lines() {
        show(&rt, line)?;
    }
    Ok(())
}

fn show(rt: &HostRuntime, line: &str) -> Result<(), Failure> {
    println!(rt; "$ dviflat {line}")?;
    let status = match obeyed(rt, line) {
        Ok(ended) => ended.status(),
        Err(failure) => {
            println!(rt; "dviflat: {failure}")?;
            1
        }
    };
    println!(rt; "status {status}\n")?;
    Ok(())
}

fn obeyed(rt: &HostRuntime, line: &str) -> Result<Ended, Failure> {
    let words: Vec<String> = line
        .split(' ')
        .map(|word| String::from_str(rt.alloc(), word))
        .try_collect(rt.alloc())?;
    cli::obey(rt, words.as_slice())
}
