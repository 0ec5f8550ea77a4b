// `fonts`: shows the names of the fonts that a document or a VF file defines.
ghost use Rattle.std.specs.Prelude.{◌≡◌};
ghost use Rattle.inspect.specs.Locals.{stop_at};

use crate::locals::{Locals, locals_from};
use answers::refused;
use document::{entries_of, legal};
use shelf::Refusal;
use terminal::{Ended, Failure, Output};

pub fn show_fonts(rt: &HostRuntime, words: &[String]) -> Result<Ended, Failure> {
    let heap = rt.alloc();
    let [path] = words else {
        return Err(Failure::Told(format!(in heap; "fonts takes one file")?));
    };
    let read = terminal::read(rt, path.as_str())?;
    let file = read.as_slice();
    let mut out = Output::new(rt);
    let shown = match file {
        [247, 202, comment, ..] => {
            let locals = locals_from(file, usize::from(*comment) + BEHIND_COMMENT, heap)?;
            show_locals(file, &locals, &mut out)
        }
        _ => show_defined(file, &mut out),
    };
    shown.try_map_err(|refusal| Ok(refused(Some(path.as_str()), refusal, heap)?))?;
    out.finish()?;
    Ok(Ended::Done)
}

// The first definition stands behind two bytes, the comment's length, the comment, check sum and design size.
const BEHIND_COMMENT: usize = 11;

// The local fonts of a VF file.
fn show_locals(file: &[u8], locals: &Locals, out: &mut Output) -> Result<(), Refusal> {
    stop_of(file, locals.end)?;
    for name in locals.names.as_slice() {
        show_name(name, out);
    }
    Ok(())
}

// Behind the definitions stands a packet, or a byte that ends the file.
fn stop_of(file: &[u8], end: usize) -> Result<(), Refusal>
    ensures { result ≡ stop_at file.now end }
{
    match file.get(end) {
        Some(0..=242 | 248) => Ok(()),
        _ if end > file.len() => Err(Refusal::BrokenVf { place: 0 }),
        _ => Err(Refusal::BrokenVf { place: end }),
    }
}

// The fonts that a document's postamble defines.
fn show_defined(file: &[u8], out: &mut Output) -> Result<(), Refusal> {
    let stated = legal(file)?;
    for (_, definition) in entries_of(file, stated) {
        if let Some(font) = definition {
            show_name(font.name, out);
        }
    }
    Ok(())
}

fn show_name(name: &[u8], out: &mut Output) {
    out.write_bytes(name);
    writeln!(out, "");
}
