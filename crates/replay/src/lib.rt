// `replay`: runs a script of calls on the library, and prints the answer to each.
#![tactic(auto)]

mod buffers;
mod comparing;
mod copying;
mod current;
mod queries;
mod session;
mod state;
mod stops;

use comparing::compare;
use state::State;
use terminal::{Ended, Failure, Output};

// The answers are printed; or held against those that a file has, and printed where they differ.
pub fn run_script(rt: &HostRuntime, words: &[String]) -> Result<Ended, Failure> {
    let heap = rt.alloc();
    match words {
        [script] => {
            answer(rt, script.as_str(), Output::new(rt))?.finish()?;
            Ok(Ended::Done)
        }
        [script, option, file] if option.as_str() == "--expect" => {
            let wanted = terminal::read(rt, file.as_str())?;
            let got = answer(rt, script.as_str(), Output::in_memory(heap))?.kept()?;
            let got = got.unwrap_or(Vec::new(heap));
            let mut out = Output::new(rt);
            let differ = compare(wanted.as_slice(), got.as_slice(), &mut out, heap)?;
            out.finish()?;
            Ok(if differ == 0 {
                Ended::Done
            } else {
                Ended::Differs
            })
        }
        _ => Err(Failure::Told(format!(in heap;
            "replay takes one script, and at most --expect FILE behind it"
        )?)),
    }
}

// One line is one call. A line that makes no sense is answered by `error`, and the script goes on; only an answer that
// cannot be written ends it.
fn answer(rt: &HostRuntime, path: &str, out: Output) -> Result<Output, Failure> {
    let script = terminal::read(rt, path)?;
    let lines = script::cut(script.as_slice(), b'\n', rt.alloc())?;
    let mut state = State::new(rt, out);
    let mut next = 0;
    for at in 0..lines.len() {
        if at >= next && !state.session.out.has_failed() {
            next = state.take(lines.as_slice(), at);
        }
    }
    Ok(state.into_output())
}
