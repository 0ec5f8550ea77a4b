// One mark put into the caller's list.
ghost use Rattle.std.specs.Prelude.{List, [], ◌∷◌};
ghost use Rattle.shelf.specs.Answers.{Answered};
ghost use Rattle.shelf.specs.Outcomes.{ends, well};

use crate::marks::{Link, Mark};
use crate::refusals::Refusal;

// What comes to one mark and a width. The chain list is not touched.
pub fn put_mark(mark: Mark, width: i64, marks: &mut [Mark]) -> Result<(usize, i64), Refusal>
    ensures { (chain : List Link) → Answered (ends (mark ∷ []) (well width)) chain chain marks.old marks.new result }
{
    if marks.is_empty() {
        return Err(Refusal::MarksFull);
    }
    marks[0] = mark;
    Ok((1, width))
}
