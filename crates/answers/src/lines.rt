// The library's values in words and numbers, as answers tell them.
ghost use Rattle.std.specs.Prelude.{Some};
ghost use Rattle.shelf.specs.Refusals.{returned};
ghost use Rattle.answers.specs.Lines.{count_line, face_line, link_line, mark_line, name_word, returned_line};

use shelf::{Count, Face, Link, Mark, Refusal};
use std::fmt;

// A value as the line of an answer tells it.
#[derive(Drop)]
pub struct Told<T>(pub T);

impl fmt::Display for Told<Count> {
    ghost output = { λ told. Some (count_line told.0) };

    fn fmt<W: fmt::Write>(&self, f: &mut fmt::Formatter<W>) -> fmt::Result {
        let Count { fonts, faces } = self.0;
        write!(f, "{fonts} {faces}")
    }
}

impl fmt::Display for Told<Face<'_>> {
    ghost output = { λ told. Some (face_line told.0) };

    fn fmt<W: fmt::Write>(&self, f: &mut fmt::Formatter<W>) -> fmt::Result {
        let Face {
            name,
            checksum,
            design,
        } = self.0;
        write!(f, "{checksum} {design} {}", Digits(name))
    }
}

impl fmt::Display for Told<Refusal> {
    ghost output = { λ told. Some (returned_line (returned told.0)) };

    fn fmt<W: fmt::Write>(&self, f: &mut fmt::Formatter<W>) -> fmt::Result {
        let number = self.0.number();
        write!(f, "refused {number}")?;
        if let Some(value) = self.0.value() {
            write!(f, " {value}")?;
        }
        if let Some(links) = self.0.links() {
            write!(f, " chain {links}")?;
        }
        Ok(())
    }
}

impl fmt::Display for Told<Mark> {
    ghost output = { λ told. Some (mark_line told.0) };

    fn fmt<W: fmt::Write>(&self, f: &mut fmt::Formatter<W>) -> fmt::Result {
        match self.0 {
            Mark::Glyph {
                face,
                size,
                code,
                h,
                v,
            } => write!(f, "glyph {face} {size} {code} {h} {v}"),
            Mark::Rule {
                height,
                width,
                h,
                v,
            } => write!(f, "rule {height} {width} {h} {v}"),
        }
    }
}

impl fmt::Display for Told<Link> {
    ghost output = { λ told. Some (link_line told.0) };

    fn fmt<W: fmt::Write>(&self, f: &mut fmt::Formatter<W>) -> fmt::Result {
        let Link { font, code, place } = self.0;
        write!(f, "link {font} {code} {place}")
    }
}

// A name as two digits for each byte, or `-` for none.
#[derive(Clone, Copy)]
struct Digits<'a>(&'a [u8]);

impl fmt::Display for Digits<'_> {
    ghost output = { λ digits. Some (name_word digits.0.now) };

    fn fmt<W: fmt::Write>(&self, f: &mut fmt::Formatter<W>) -> fmt::Result {
        if self.0.is_empty() {
            return write!(f, "-");
        }
        for &byte in self.0 {
            write!(f, "{byte:02x}")?;
        }
        Ok(())
    }
}
