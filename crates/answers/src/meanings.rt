// What each refusal of the library means, in plain words. A `Display` for them would be the same `match`, around a type that
// is made for it alone.
ghost use Rattle.std.specs.Prelude.{◌≡◌};
ghost use Rattle.answers.specs.Meanings.{cause_words, refusal_words};

use shelf::{Cause, Refusal};

pub fn meaning(refusal: &Refusal) -> &'static str
    ensures { result.now ≡ refusal_words refusal.now }
{
    match *refusal {
        Refusal::DocumentLength { length: _ } =>
            "the document has fewer than 54 or more than 16,777,216 bytes",
        Refusal::NotDocument { place: _ } => "the document does not begin as DVI",
        Refusal::WrongUnits { place: _ } =>
            "num, den or mag is wrong, or differs between preamble and postamble",
        Refusal::BrokenEnding { length: _ } => "the document's ending is broken",
        Refusal::BrokenPages { place: _ } => "the chain of pages is broken",
        Refusal::BrokenPostamble { place: _ } => "a command of the postamble is broken",
        Refusal::BrokenTfm { entry: _ } => "broken TFM file",
        Refusal::BrokenVf { place: _ } => "broken VF file",
        Refusal::ShelfFull => "the shelf or rank is full",
        Refusal::TfmName { entry: _ } | Refusal::VfName => "the font's name is bad or taken",
        Refusal::NotBelow { place: _ } => "a local font is not on the shelf below",
        Refusal::Fault { cause, links: _ } => meaning_of_cause(cause),
        Refusal::MarksFull => "the mark list is full",
        Refusal::RunClosed => "the run is closed",
        Refusal::NoPage => "there is no such page",
        Refusal::OtherMag => "the document has another magnification",
        Refusal::PairsFull => "the output would need a 65th pair of face and size",
        Refusal::OutputFull => "the output would not fit, or have a 65,536th page",
        Refusal::NothingToStrike => "there is no page to strike",
        Refusal::BadOutput => "the output buffer does not hold the run",
    }
}

fn meaning_of_cause(cause: Cause) -> &'static str
    ensures { result.now ≡ cause_words cause }
{
    match cause {
        Cause::NotAllowed => "a command is not allowed here",
        Cause::PastEnd => "a command runs past the end",
        Cause::Frames => "a 65th frame is pushed, none is left to pop, or some are left at the end",
        Cause::NoFont => "the font is undefined, or none is selected",
        Cause::NoName => "the font's name is not on the shelf",
        Cause::NoCode => "the font has no such code",
        Cause::OutOfRange => "a position is out of range",
        Cause::BadSize => "a fix_word or a size is bad",
    }
}
