// What a script has built so far, and the lines that change it.
ghost use Rattle.std.specs.Prelude.{◌≡◌, ℕ, IfOk, Some, slice_index_or};
ghost use Rattle.script.specs.Spelling.{unsigned};

use crate::current::Current;
use crate::session::Session;
use crate::stops::Stop;
use answers::Told;
use script::Problem;
use shelf::Shelf;
use terminal::Output;
use tfm::{Entry, TfmShelf};

#[derive(Drop)]
pub struct State<'a> {
    pub session: Session<'a>,
    shelf: Option<Current>,
}

impl<'a> State<'a> {
    pub fn new(rt: &'a HostRuntime, out: Output) -> State<'a> {
        State {
            session: Session::new(rt, out),
            shelf: None,
        }
    }

    // Carries out the line at a place, and those that a run takes with it. Answers the place of the next one.
    pub fn take(&mut self, lines: &[&[u8]], at: usize) -> usize {
        let next = at.saturating_add(1);
        let Some(line) = lines.get(at) else {
            return next;
        };
        if !self.session.is_call(line) {
            return next;
        }
        if line.starts_with(b"case ") {
            self.shelf = None;
            self.session.begin(line);
            return next;
        }
        self.obey(line, lines, next).unwrap_or_else(|stop| {
            self.session.tell(stop);
            next
        })
    }

    fn obey(&mut self, line: &[u8], lines: &[&[u8]], next: usize) -> Result<usize, Stop> {
        let words = script::cut(line, b' ', self.session.rt.alloc())?;
        match words.as_slice() {
            [b"tfm", name, places @ ..] => self.make_shelf(name, places)?,
            [b"rank"] => self.put_rank()?,
            [b"add", name, id] => self.add_file(name, id)?,
            [b"alone"] => self.take_faces()?,
            [b"count" | b"find" | b"face" | b"character" | b"read", ..] => self.ask(
                words.as_slice(),
            )?,
            [b"open", ..] => {
                let shelf = self.shelf.as_ref().ok_or(Problem::NoShelf)?;
                return Ok(shelf.run_on(&mut self.session, words.as_slice(), lines, next));
            }
            [b"tfm" | b"rank" | b"add" | b"alone", ..] => return Err(Problem::WrongCount.into()),
            words => self.session.obey_anywhere(words)?,
        }
        Ok(next)
    }

    // A refusal leaves the shelf as it was.
    fn make_shelf(&mut self, name: &[u8], places: &[&[u8]]) -> Result<(), Stop> {
        let heap = self.session.rt.alloc();
        let bytes = self.session.store.find(name)?;
        let entries: Vec<Entry> = places.chunks(4).map(entry_of).try_collect(heap)?;
        let shelf = TfmShelf::new(bytes, entries.as_slice(), heap)?;
        writeln!(self.session.out, "ok {}\n.", Told(shelf.count()));
        self.shelf = Some(Current::Tfm(shelf));
        Ok(())
    }

    fn put_rank(&mut self) -> Result<(), Stop> {
        self.shelf.as_ref().ok_or(Problem::NoShelf)?.takes_rank()?;
        if let Some(shelf) = self.shelf.take() {
            self.shelf = Some(shelf.ranked(self.session.rt.alloc())?);
        }
        writeln!(self.session.out, "ok\n.");
        Ok(())
    }

    fn add_file(&mut self, name: &[u8], id: &[u8]) -> Result<(), Stop> {
        let name = script::bytes(name, self.session.rt.alloc())?;
        let file = self.session.store.find(id)?;
        let shelf = self.shelf.as_mut().ok_or(Problem::NoRank)?;
        shelf.add(name.as_slice(), file)?;
        writeln!(self.session.out, "ok\n.");
        Ok(())
    }

    fn take_faces(&mut self) -> Result<(), Stop> {
        let shelf = self.shelf.take().ok_or(Problem::NoShelf)?;
        self.shelf = Some(shelf.alone());
        writeln!(self.session.out, "ok\n.");
        Ok(())
    }

    // A call that changes nothing.
    fn ask(&mut self, call: &[&[u8]]) -> Result<(), Stop> {
        let shelf = self.shelf.as_ref().ok_or(Problem::NoShelf)?;
        Ok(self.session.ask(shelf, call)?)
    }

    pub fn into_output(self) -> Output {
        let State { session, shelf: _ } = self;
        session.into_output()
    }
}

fn entry_of(four: &[&[u8]]) -> Result<Entry, Problem>
    ensures name_place { IfOk result (λ e. (w : _) → unsigned (slice_index_or four.now 0 w).now ≡ Some e.name_place) }
    ensures name_length { IfOk result (λ e. (w : _) → unsigned (slice_index_or four.now 1 w).now ≡ Some e.name_length) }
    ensures file_place { IfOk result (λ e. (w : _) → unsigned (slice_index_or four.now 2 w).now ≡ Some e.file_place) }
    ensures file_length { IfOk result (λ e. (w : _) → unsigned (slice_index_or four.now 3 w).now ≡ Some e.file_length) }
{
    let [name_place, name_length, file_place, file_length] = script::all::<usize, 4>(four)?;
    Ok(Entry {
        name_place,
        name_length,
        file_place,
        file_length,
    })
}
