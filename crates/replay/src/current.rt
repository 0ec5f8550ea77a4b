// The shelf that the calls of a script are made on.
ghost use Rattle.std.specs.Prelude.{◌≡◌, ◌+◌, IfOk, Ok, true};
ghost use Rattle.replay.specs.Layers.{ranks, is_alone, takes_rank};

use crate::queries::Query;
use crate::session::Session;
use crate::stops::Stop;
use rank::Rank;
use script::Problem;
use shelf::FacesAlone;
use std::alloc::{AllocError, Global};
use terminal::Output;
use tfm::TfmShelf;

// Each way in which shelves are put together is a case, since each is a type of its own. A `Box<dyn Shelf>` in their
// place cannot be made here and handed out, and a case with a rank over this type cannot be stated: it leads back
// through the bound of `Rank`, which has ghost members.
#[derive(Drop)]
pub enum Current {
    Tfm(TfmShelf),
    Rank1(Rank<TfmShelf>),
    Rank2(Rank<Rank<TfmShelf>>),
    Rank3(Rank<Rank<Rank<TfmShelf>>>),
    Rank4(Rank<Rank<Rank<Rank<TfmShelf>>>>),
    TfmAlone(FacesAlone<TfmShelf>),
    Alone1(FacesAlone<Rank<TfmShelf>>),
    Alone2(FacesAlone<Rank<Rank<TfmShelf>>>),
    Alone3(FacesAlone<Rank<Rank<Rank<TfmShelf>>>>),
    Alone4(FacesAlone<Rank<Rank<Rank<Rank<TfmShelf>>>>>),
}

impl Current {
    pub fn ask(&self, query: &Query, heap: Global, out: &mut Output) -> Result<(), AllocError> {
        match self {
            Current::Tfm(shelf) => query.put_to(shelf, heap, out),
            Current::Rank1(shelf) => query.put_to(shelf, heap, out),
            Current::Rank2(shelf) => query.put_to(shelf, heap, out),
            Current::Rank3(shelf) => query.put_to(shelf, heap, out),
            Current::Rank4(shelf) => query.put_to(shelf, heap, out),
            Current::TfmAlone(shelf) => query.put_to(shelf, heap, out),
            Current::Alone1(shelf) => query.put_to(shelf, heap, out),
            Current::Alone2(shelf) => query.put_to(shelf, heap, out),
            Current::Alone3(shelf) => query.put_to(shelf, heap, out),
            Current::Alone4(shelf) => query.put_to(shelf, heap, out),
        }
    }

    // The lines of a run over this shelf, from the one that opens it.
    pub fn run_on(
        &self,
        session: &mut Session<'_>,
        opening: &[&[u8]],
        lines: &[&[u8]],
        from: usize,
    ) -> usize {
        match self {
            Current::Tfm(shelf) => session.run_on(shelf, opening, lines, from),
            Current::Rank1(shelf) => session.run_on(shelf, opening, lines, from),
            Current::Rank2(shelf) => session.run_on(shelf, opening, lines, from),
            Current::Rank3(shelf) => session.run_on(shelf, opening, lines, from),
            Current::Rank4(shelf) => session.run_on(shelf, opening, lines, from),
            Current::TfmAlone(shelf) => session.run_on(shelf, opening, lines, from),
            Current::Alone1(shelf) => session.run_on(shelf, opening, lines, from),
            Current::Alone2(shelf) => session.run_on(shelf, opening, lines, from),
            Current::Alone3(shelf) => session.run_on(shelf, opening, lines, from),
            Current::Alone4(shelf) => session.run_on(shelf, opening, lines, from),
        }
    }

    // The faces alone of this shelf. Of the faces alone these are the same again.
    pub fn alone(self) -> Current
        ensures alone { is_alone result ≡ true }
        ensures ranks { ranks result ≡ ranks self }
    {
        match self {
            Current::Tfm(shelf) => Current::TfmAlone(FacesAlone(shelf)),
            Current::Rank1(shelf) => Current::Alone1(FacesAlone(shelf)),
            Current::Rank2(shelf) => Current::Alone2(FacesAlone(shelf)),
            Current::Rank3(shelf) => Current::Alone3(FacesAlone(shelf)),
            Current::Rank4(shelf) => Current::Alone4(FacesAlone(shelf)),
            other => other,
        }
    }

    // Whether a rank can be put over this shelf. Asked first: `ranked` takes the shelf, which a refusal must leave.
    pub fn takes_rank(&self) -> Result<(), Problem>
        ensures { result ≡ takes_rank self.now }
    {
        match self {
            Current::Tfm(_) | Current::Rank1(_) | Current::Rank2(_) | Current::Rank3(_) => Ok(()),
            _ => Err(Problem::NoRankHere),
        }
    }

    // An empty rank over this shelf, where there can be one.
    pub fn ranked(self, heap: Global) -> Result<Current, AllocError>
        ensures more { takes_rank self ≡ Ok tt → IfOk result (λ c. ranks c ≡ ranks self + 1) }
        ensures alone { IfOk result (λ c. is_alone c ≡ is_alone self) }
    {
        Ok(match self {
            Current::Tfm(shelf) => Current::Rank1(Rank::new(shelf, heap)?),
            Current::Rank1(shelf) => Current::Rank2(Rank::new(shelf, heap)?),
            Current::Rank2(shelf) => Current::Rank3(Rank::new(shelf, heap)?),
            Current::Rank3(shelf) => Current::Rank4(Rank::new(shelf, heap)?),
            other => other,
        })
    }

    // A VF file added to the rank on top.
    pub fn add(&mut self, name: &[u8], file: &[u8]) -> Result<(), Stop> {
        Ok(match self {
            Current::Rank1(rank) => rank.add(name, file)?,
            Current::Rank2(rank) => rank.add(name, file)?,
            Current::Rank3(rank) => rank.add(name, file)?,
            Current::Rank4(rank) => rank.add(name, file)?,
            _ => return Err(Problem::NoRank.into()),
        })
    }
}
