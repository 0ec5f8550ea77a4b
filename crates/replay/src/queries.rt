// The calls that a shelf answers and that change nothing, whatever its layers are.
ghost use Rattle.std.specs.Prelude.{◌≡◌, ◌<◌, ◌≤◌, ℕ, pos, negsuc, length, Err};
ghost use Rattle.shelf.specs.Answers.{Answered};
ghost use Rattle.shelf.specs.Meaning.{called, started};
ghost use Rattle.shelf.specs.declared.refusals.Refusal.TheVariants.{Fault};
ghost use Rattle.replay.specs.Codes.{cause_before_code};

use answers::{Lists, Told};
use reading::read;
use script::{Number, Problem, Store};
use shelf::{Asked, Cause, Refusal, Shelf};
use std::alloc::{AllocError, Global};
use terminal::Output;

// Every shelf answers the same calls: they are a value, so that only `Current::ask` goes through the kinds of shelves.
#[derive(Drop)]
pub enum Query<'a> {
    Count,
    Find(Vec<u8>),
    Face(u16),
    // With so many entries in the mark list and the chain list.
    Character {
        asked: AnyCode,
        marks: usize,
        chain: usize,
    },
    // The same for a page.
    Read {
        document: &'a [u8],
        page: usize,
        marks: usize,
        chain: usize,
    },
}

impl<'a> Query<'a> {
    pub fn parse(words: &[&[u8]], store: &'a Store, heap: Global) -> Result<Query<'a>, Problem> {
        match words {
            [b"count"] => Ok(Query::Count),
            [b"find", name] => Ok(Query::Find(script::bytes(name, heap)?)),
            [b"face", k] => Ok(Query::Face(script::font(i64::spelled(k)?))),
            [b"character", point @ .., marks, chain] => Ok(Query::Character {
                asked: AnyCode::parse(point)?,
                marks: usize::spelled(marks)?,
                chain: usize::spelled(chain)?,
            }),
            [b"read", name, numbers @ ..] => {
                let document = store.find(name)?;
                let [page, marks, chain] = script::all::<usize, 3>(numbers)?;
                Ok(Query::Read {
                    document,
                    page,
                    marks,
                    chain,
                })
            }
            _ => Err(Problem::WrongCount),
        }
    }

    pub fn put_to<S: Shelf>(
        &self,
        shelf: &S,
        heap: Global,
        out: &mut Output,
    ) -> Result<(), AllocError> {
        match self {
            Query::Count => writeln!(out, "ok {}", Told(shelf.count())),
            Query::Find(name) => match shelf.find(name.as_slice()) {
                Some(font) => writeln!(out, "ok {font}"),
                None => writeln!(out, "ok none"),
            },
            Query::Face(k) => match shelf.face(*k) {
                Some(face) => writeln!(out, "ok {}", Told(face)),
                None => writeln!(out, "ok none"),
            },
            Query::Character {
                asked,
                marks,
                chain,
            } => {
                let mut lists = Lists::fresh(*marks, *chain, heap)?;
                match asked.put_to(shelf, &mut lists) {
                    Ok((count, width)) => writeln!(out, "ok {count} {width}"),
                    Err(refusal) => writeln!(out, "{}", Told(refusal)),
                }
                lists.tell(out);
            }
            Query::Read {
                document,
                page,
                marks,
                chain,
            } => {
                let mut lists = Lists::fresh(*marks, *chain, heap)?;
                let read = read(
                    document,
                    *page,
                    shelf,
                    lists.chain.as_mut_slice(),
                    lists.marks.as_mut_slice(),
                );
                match read {
                    Ok(count) => writeln!(out, "ok {count}"),
                    Err(refusal) => writeln!(out, "{}", Told(refusal)),
                }
                lists.tell(out);
            }
        }
        Ok(())
    }
}

// A character that is asked for by a code that no call may be given.
#[derive(Clone, Copy)]
pub struct AnyCode {
    // what is asked for but for the code, which counts once it is known to be one
    asked: Asked,
    code: i64,
}

impl AnyCode {
    fn parse(point: &[&[u8]]) -> Result<AnyCode, Problem> {
        let [font, size, code, h, v] = script::all::<i64, 5>(point)?;
        let asked = Asked {
            font: script::font(font),
            size: script::size(size),
            code: 0,
            h,
            v,
        };
        Ok(AnyCode { asked, code })
    }

    fn put_to<S: Shelf>(&self, shelf: &S, lists: &mut Lists) -> Result<(usize, i64), Refusal>
        ensures code { (code : ℕ) → self.now.code ≡ pos code → code < 256 → Answered (called (S.means shelf.now) self.now.asked.font self.now.asked.size code self.now.asked.h self.now.asked.v) lists.old.chain.items lists.new.chain.items lists.old.marks.items lists.new.marks.items result }
        ensures above { (n : ℕ) → self.now.code ≡ pos n → 256 ≤ n → result ≡ Err (Fault (cause_before_code (started (length (S.means shelf.now).names) self.now.asked.font self.now.asked.size self.now.asked.h self.now.asked.v)) 0) }
        ensures below { (n : ℕ) → self.now.code ≡ negsuc n → result ≡ Err (Fault (cause_before_code (started (length (S.means shelf.now).names) self.now.asked.font self.now.asked.size self.now.asked.h self.now.asked.v)) 0) }
    {
        match u8::try_from(self.code) {
            Ok(code) => self.with_code(code, shelf, lists),
            Err(_) => Err(self.without_code(shelf)),
        }
    }

    fn with_code<S: Shelf>(
        &self,
        code: u8,
        shelf: &S,
        lists: &mut Lists,
    ) -> Result<(usize, i64), Refusal>
        ensures { Answered (called (S.means shelf.now) self.now.asked.font self.now.asked.size code self.now.asked.h self.now.asked.v) lists.old.chain.items lists.new.chain.items lists.old.marks.items lists.new.marks.items result }
    {
        let asked = Asked { code, ..self.asked };
        shelf.character(
            asked,
            lists.chain.as_mut_slice(),
            lists.marks.as_mut_slice(),
        )
    }

    // The refusal of a code that no call can be given: font, size and position are looked at before the code.
    fn without_code<S: Shelf>(&self, shelf: &S) -> Refusal
        ensures { result ≡ Fault (cause_before_code (started (length (S.means shelf.now).names) self.now.asked.font self.now.asked.size self.now.asked.h self.now.asked.v)) 0 }
    {
        let started = self.asked.start(shelf.count().fonts);
        started.err().unwrap_or(Cause::NoCode).into()
    }
}
