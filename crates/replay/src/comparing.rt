// Compares the answers to a script with those that are expected, case by case.
ghost use Rattle.std.specs.Prelude.{◌≡◌, ◌++◌, ◌==◌, ◌<◌, ◌≤◌, ℕ, List, ◌∷◌, [], IfOk, IfSome, OnOk, drop, length, map, not};
ghost use Rattle.std.specs.List.{count_by, flat_map};
ghost use Rattle.replay.specs.Cases.{Line, alike, differs, line_begins_case, name_of, outcomes, paired, place_of, rest_behind, told_of};
ghost use Rattle.replay.specs.declared.comparing.Outcome.TheVariants.{Extra};

use std::alloc::{AllocError, Global};
use terminal::Output;

// The lines of a case, from the one that names it on.
type Case<'a> = &'a [&'a [u8]];

// What came of a case.
#[derive(Clone, Copy)]
enum Outcome<'a> {
    Same,
    // So many lines from the first on are the same.
    Differs {
        wanted: Case<'a>,
        got: Case<'a>,
        same: usize,
    },
    Missing(Case<'a>),
    Extra(Case<'a>),
}

// Tells of each case that differs, and then how many cases there are and how many of them differ. Answers the latter.
pub(crate) fn compare(
    wanted: &[u8],
    got: &[u8],
    out: &mut Output,
    heap: Global,
) -> Result<usize, AllocError> {
    let wanted = script::cut(wanted, b'\n', heap)?;
    let got = script::cut(got, b'\n', heap)?;
    let wanted = cases_of(ended(wanted.as_slice()), heap)?;
    let got = cases_of(ended(got.as_slice()), heap)?;
    let outcomes = outcomes_of(wanted.as_slice(), got.as_slice(), heap)?;
    for outcome in outcomes.as_slice() {
        outcome.tell(out);
    }
    let differ = count_differing(outcomes.as_slice());
    writeln!(out, "{} cases, {differ} differ", outcomes.len());
    Ok(differ)
}

// Behind the newline that ends a text there is no line more.
fn ended<'a>(lines: &'a [&'a [u8]]) -> &'a [&'a [u8]]
    ensures ended { (front : List Line) (last : Line) → lines.now ≡ front ++ last ∷ [] → length last.now ≡ 0 → result.now ≡ front }
    ensures open { (front : List Line) (last : Line) → lines.now ≡ front ++ last ∷ [] → 0 < length last.now → result.now ≡ lines.now }
{
    match lines {
        [front @ .., last] if last.is_empty() => front,
        all => all,
    }
}

// A case begins with each line that names one. What stands before the first is a case too, which has no name.
fn cases_of<'a>(lines: &'a [&'a [u8]], heap: Global) -> Result<Vec<Case<'a>>, AllocError>
    ensures { IfOk result (λ cases. flat_map (λ case. case.now) cases.items ≡ lines.now) }
{
    lines.chunk_by(|_, line| !begins_case(line)).collect(heap)
}

fn begins_case(line: &[u8]) -> bool
    ensures { result ≡ line_begins_case line.now }
{
    line.starts_with(b"case ")
}

// The line that names a case; of one without a name, no byte.
fn name<'a>(case: Case<'a>) -> &'a [u8]
    ensures { result.now ≡ name_of case.now }
{
    match case {
        [first, ..] if begins_case(first) => first,
        _ => &[],
    }
}

// Each case that is wanted is held against the next of its name. Those that are passed over on the way, and those left at
// the end, are not expected.
fn outcomes_of<'a>(
    wanted: &[Case<'a>],
    got: &[Case<'a>],
    heap: Global,
) -> Result<Vec<Outcome<'a>>, AllocError>
    ensures { IfOk result (λ all. all.items ≡ outcomes wanted.now got.now) }
{
    let mut all = Vec::new(heap);
    let mut at = 0;
    for case in wanted {
        at += take_to(&mut all, *case, &got[at..])?;
    }
    push_extra(&mut all, &got[at..])?;
    Ok(all)
}

// Up to the next case of its name; answers how many are taken.
fn take_to<'a>(
    all: &mut Vec<Outcome<'a>>,
    case: Case<'a>,
    got: &[Case<'a>],
) -> Result<usize, AllocError>
    ensures told { OnOk result (all.new.items ≡ all.old.items ++ told_of case.entry got.now (place_of case.entry got.now)) }
    ensures taken { IfOk result (λ n. (n ≤ length got.now) × (drop n got.now ≡ rest_behind got.now (place_of case.entry got.now))) }
{
    match place_of(case, got) {
        None => {
            all.push(Outcome::Missing(case))?;
            Ok(0)
        }
        Some(place) => {
            push_extra(all, &got[..place])?;
            all.push(pair(case, got[place]))?;
            Ok(place + 1)
        }
    }
}

// Where these have the name of a case first.
fn place_of(case: Case<'_>, got: &[Case<'_>]) -> Option<usize>
    ensures place { result ≡ place_of case.entry got.now }
    ensures bound { IfSome result (λ place. place < length got.now) }
{
    got.iter().position(|other| name(*other) == name(case))
}

fn push_extra<'a>(all: &mut Vec<Outcome<'a>>, cases: &[Case<'a>]) -> Result<(), AllocError>
    ensures { OnOk result (all.new.items ≡ all.old.items ++ map (λ case. Extra case) cases.now) }
{
    for case in cases {
        all.push(Outcome::Extra(*case))?;
    }
    Ok(())
}

// Of two cases of one name.
fn pair<'a>(wanted: Case<'a>, got: Case<'a>) -> Outcome<'a>
    ensures { result ≡ paired wanted.entry got.entry }
{
    let same = count_alike(wanted, got);
    if same == wanted.len() && same == got.len() {
        Outcome::Same
    } else {
        Outcome::Differs { wanted, got, same }
    }
}

// How many lines from the first on are the same.
fn count_alike(wanted: Case<'_>, got: Case<'_>) -> usize
    ensures { result ≡ alike wanted.now got.now }
{
    for (place, line) in wanted.iter().enumerate() {
        match got.get(place) {
            Some(other) if line == other => {}
            _ => return place,
        }
    }
    wanted.len()
}

fn count_differing(outcomes: &[Outcome<'_>]) -> usize
    ensures { result ≡ count_by differs outcomes.now }
{
    outcomes.iter().filter(|outcome| outcome.differs()).count()
}

impl Outcome<'_> {
    fn differs(&self) -> bool
        ensures { result ≡ differs self.now }
    {
        !matches!(self, Outcome::Same)
    }

    fn tell(&self, out: &mut Output) {
        match self {
            Outcome::Same => {}
            Outcome::Differs { wanted, got, same } => {
                tell_name(*wanted, out);
                writeln!(out, " differs in line {}", same.saturating_add(1));
                tell_line("wanted", wanted.get(*same), out);
                tell_line("got", got.get(*same), out);
            }
            Outcome::Missing(case) => {
                tell_name(*case, out);
                writeln!(out, " is missing");
            }
            Outcome::Extra(case) => {
                tell_name(*case, out);
                writeln!(out, " is not expected");
            }
        }
    }
}

fn tell_name(case: Case<'_>, out: &mut Output) {
    match name(case) {
        [] => write!(out, "what stands before the first case"),
        name => out.write_bytes(name),
    }
}

fn tell_line(word: &str, line: Option<&&[u8]>, out: &mut Output) {
    match line {
        Some(line) => {
            write!(out, "  {word} ");
            out.write_bytes(line);
            writeln!(out, "");
        }
        None => writeln!(out, "  {word} no line more"),
    }
}
