// A character asked for with as much room for its marks as it turns out to need.
ghost use Rattle.std.specs.Prelude.{◌≡◌, ℕ, IfOk, Err};
ghost use Rattle.answers.specs.Fresh.{no_marks, no_links};
ghost use Rattle.shelf.specs.Answers.{Answered};
ghost use Rattle.shelf.specs.Meaning.{called};
ghost use Rattle.shelf.specs.declared.refusals.Refusal.TheVariants.{MarksFull};

use answers::Lists;
use shelf::{Asked, Refusal, Shelf};
use std::alloc::{AllocError, Global};

// How many marks there is room for, one try after the other.
const ROOMS: [usize; 2] = [256, 16_384];

// The room in the last try. A character that has more marks is refused.
const MAX_MARKS: usize = 1_048_576;

// A packet on each of four ranks, and a page.
const MAX_LINKS: usize = 5;

// What a call answered, and the lists that it filled.
#[derive(Drop)]
pub struct Answer {
    pub lists: Lists,
    pub answer: Result<(usize, i64), Refusal>,
}

pub fn ask<S: Shelf>(shelf: &S, asked: Asked, heap: Global) -> Result<Answer, AllocError>
    ensures { IfOk result (λ a. (room : ℕ) × Answered (called (S.means shelf.now) asked.font asked.size asked.code asked.h asked.v) (no_links MAX_LINKS) a.lists.chain.items (no_marks room) a.lists.marks.items a.answer × (a.answer ≡ Err MarksFull → room ≡ MAX_MARKS)) }
{
    for room in ROOMS {
        let told = ask_with(shelf, asked, room, heap)?;
        if !matches!(told.answer, Err(Refusal::MarksFull)) {
            return Ok(told);
        }
    }
    ask_with(shelf, asked, MAX_MARKS, heap)
}

fn ask_with<S: Shelf>(
    shelf: &S,
    asked: Asked,
    room: usize,
    heap: Global,
) -> Result<Answer, AllocError>
    ensures { IfOk result (λ a. Answered (called (S.means shelf.now) asked.font asked.size asked.code asked.h asked.v) (no_links MAX_LINKS) a.lists.chain.items (no_marks room) a.lists.marks.items a.answer) }
{
    let mut lists = Lists::fresh(room, MAX_LINKS, heap)?;
    let answer = shelf.character(
        asked,
        lists.chain.as_mut_slice(),
        lists.marks.as_mut_slice(),
    );
    Ok(Answer { lists, answer })
}
