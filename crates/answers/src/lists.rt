// The lists that a call fills, and how what it wrote is told.
ghost use Rattle.std.specs.Prelude.{◌≡◌, ◌++◌, take, drop, Some, IfOk};
ghost use Rattle.answers.specs.Fresh.{no_links, no_marks};
ghost use Rattle.answers.specs.Lists.{has_other, lists_text, same_link, same_mark, unwritten, written, written_count};

use crate::lines::Told;
use shelf::{Link, Mark};
use std::alloc::{AllocError, Global};
use std::fmt;
use terminal::Output;

#[derive(Drop)]
pub struct Lists {
    pub marks: Vec<Mark>,
    pub chain: Vec<Link>,
}

// What fresh lists hold. No call writes such an entry, so whatever differs from it was written.
const MARK_FILLER: Mark = Mark::Rule {
    height: 0,
    width: 0,
    h: i32::MIN,
    v: i32::MIN,
};

const LINK_FILLER: Link = Link {
    font: u16::MAX,
    code: u16::MAX,
    place: usize::MAX,
};

impl Lists {
    #[tactic(auto, unfolding(crate::specs::Fresh::no_marks, crate::specs::Fresh::no_links))]
    pub fn fresh(marks: usize, chain: usize, heap: Global) -> Result<Lists, AllocError>
        ensures marks { IfOk result (λ lists. lists.marks.items ≡ no_marks marks) }
        ensures chain { IfOk result (λ lists. lists.chain.items ≡ no_links chain) }
    {
        Ok(Lists {
            marks: vec![in heap; MARK_FILLER; marks]?,
            chain: vec![in heap; LINK_FILLER; chain]?,
        })
    }

    // The marks that a call wrote, all at the front.
    pub fn marks_written(&self) -> &[Mark]
        ensures { result.now ≡ written same_mark MARK_FILLER self.now.marks.items }
    {
        front(self.marks.as_slice(), &MARK_FILLER).0
    }

    pub fn links_written(&self) -> &[Link]
        ensures { result.now ≡ written same_link LINK_FILLER self.now.chain.items }
    {
        front(self.chain.as_slice(), &LINK_FILLER).0
    }

    // As if nothing had been written to the front of the mark list.
    pub fn clear_marks(&mut self)
        ensures marks { self.new.marks.items ≡ no_marks (written_count same_mark MARK_FILLER self.old.marks.items) ++ unwritten same_mark MARK_FILLER self.old.marks.items }
        ensures chain { self.new.chain ≡ self.old.chain }
    {
        clear_front(self.marks.as_mut_slice());
    }

    pub fn tell(&self, out: &mut Output) {
        write!(out, "{self}");
    }
}

// A line for each entry that was written at the front. `stray` tells of one that was written further behind.
impl fmt::Display for Lists {
    ghost output = { λ lists. Some (lists_text lists) };

    fn fmt<W: fmt::Write>(&self, f: &mut fmt::Formatter<W>) -> fmt::Result {
        let (marks, other_marks) = front(self.marks.as_slice(), &MARK_FILLER);
        let (chain, other_links) = front(self.chain.as_slice(), &LINK_FILLER);
        for mark in marks {
            writeln!(f, "{}", Told(*mark))?;
        }
        for link in chain {
            writeln!(f, "{}", Told(*link))?;
        }
        if has_stray(other_marks, &MARK_FILLER) || has_stray(other_links, &LINK_FILLER) {
            writeln!(f, "stray")?;
        }
        Ok(())
    }
}

// The entries before the first that is still the filler, and the others.
fn front<'a, T: PartialEq>(list: &'a [T], filler: &T) -> (&'a [T], &'a [T])
    ensures written { result.0.now ≡ take (written_count T.eq filler.now list.now) list.now }
    ensures others { result.1.now ≡ drop (written_count T.eq filler.now list.now) list.now }
{
    let end = list.iter().position(|entry| entry == filler);
    list.split_at(end.unwrap_or(list.len()))
}

#[tactic(auto, unfolding(crate::specs::Fresh::no_marks))]
fn clear_front(marks: &mut [Mark])
    ensures { marks.new ≡ no_marks (written_count same_mark MARK_FILLER marks.old) ++ unwritten same_mark MARK_FILLER marks.old }
{
    let count = front(marks, &MARK_FILLER).0.len();
    marks[..count].fill(MARK_FILLER);
}

fn has_stray<T: PartialEq>(list: &[T], filler: &T) -> bool
    ensures { result ≡ has_other T.eq filler.now list.now }
{
    list.iter().any(|entry| entry != filler)
}
