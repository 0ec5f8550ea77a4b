// Ranks made from the VF files that the command line names, on the faces.
ghost use Rattle.std.specs.Prelude.{◌≡◌, OnOk, Ok};
ghost use Rattle.rank.specs.Adding.{added};
ghost use Rattle.rank.specs.Held.{files_of};

use crate::faces::faces_of;
use answers::refused;
use rank::Rank;
use shelf::Shelf;
use terminal::{Ended, Failure, Font, Options};

// What a command does over the shelf of its command line, whatever the type of that is.
pub trait Task {
    fn over<S: Shelf + Drop>(
        self,
        rt: &HostRuntime,
        options: &Options,
        shelf: S,
    ) -> Result<Ended, Failure>;
}

// Does a task over the faces and the ranks that are named, at most four. Each number of ranks is a type of its own, so that
// no character is asked for through ranks that are not there.
pub fn over_shelf<T: Task + Drop>(
    rt: &HostRuntime,
    options: &Options,
    task: T,
) -> Result<Ended, Failure> {
    let faces = faces_of(rt, options.fonts.as_slice())?;
    match options.ranks.as_slice() {
        [] => task.over(rt, options, faces),
        [a] => task.over(rt, options, ranked(rt, faces, a)?),
        [a, b] => task.over(rt, options, ranked(rt, ranked(rt, faces, a)?, b)?),
        [a, b, c] => task.over(
            rt,
            options,
            ranked(rt, ranked(rt, ranked(rt, faces, a)?, b)?, c)?,
        ),
        [a, b, c, d, ..] => {
            let three = ranked(rt, ranked(rt, ranked(rt, faces, a)?, b)?, c)?;
            task.over(rt, options, ranked(rt, three, d)?)
        }
    }
}

// A rank with these files. The first that is refused is told of.
fn ranked<S: Shelf + Drop>(
    rt: &HostRuntime,
    below: S,
    fonts: &Vec<Font>,
) -> Result<Rank<S>, Failure> {
    let mut rank = Rank::new(below, rt.alloc())?;
    for font in fonts.as_slice() {
        let file = terminal::read(rt, font.file)?;
        add(rt, &mut rank, font, file.as_slice())?;
    }
    Ok(rank)
}

fn add<S: Shelf>(
    rt: &HostRuntime,
    rank: &mut Rank<S>,
    font: &Font,
    file: &[u8],
) -> Result<(), Failure>
    ensures added { OnOk result ((files_of rank.new, Ok tt) ≡ added (S.means rank.old.below) (files_of rank.old) font.now.name.now file.now) }
    ensures below { rank.new.below ≡ rank.old.below }
{
    rank.add(font.name.as_bytes(), file).try_map_err(|refusal| Ok(refused(
        Some(font.file),
        refusal,
        rt.alloc(),
    )?))
}
