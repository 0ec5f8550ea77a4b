// The TFM shelf as a shelf: font k is face k, and makes one glyph.
ghost use Rattle.std.specs.Prelude.{◌≡◌, map};
ghost use Rattle.tfm.specs.Meaning.{tfm_meaning};
ghost use Rattle.tfm.specs.Outlines.{outline_of};
ghost use Rattle.tfm.specs.Widths.{width_of};
ghost use Rattle.tfm.specs.Laws.{tfm_lawful};
ghost use Rattle.shelf.specs.Finding.{apart_distinct};
ghost use Rattle.tfm.specs.Unlike.{face_names};

use crate::faces::TfmFace;
use crate::shelves::TfmShelf;
use numbers::{first_match, number, scale, unsigned_at};
use shelf::{Asked, Cause, Count, Face, Link, Mark, Refusal, Shelf, put_mark};

impl Shelf for TfmShelf {
    ghost means = { λ s. tfm_meaning s.bytes.items (map outline_of s.faces.items) };

    ghost lawful = { λ s. tfm_lawful s.bytes.items s.faces.items s.few s.unlike };

    // The names are unlike by the type.
    ghost distinct = { λ s. apart_distinct (face_names s.faces.items) s.unlike };

    fn count(&self) -> Count {
        let n = self.faces.len() as u16;
        Count { fonts: n, faces: n }
    }

    fn find(&self, name: &[u8]) -> Option<u16> {
        first_match(self.faces.as_slice(), name).map(|k| k as u16)
    }

    fn face(&self, k: u16) -> Option<Face<'_>> {
        self.faces.get(usize::from(k)).map(|f| Face {
            name: f.name.as_slice(),
            checksum: f.checksum,
            design: f.design,
        })
    }

    #[inline]
    fn character(
        &self,
        asked: Asked,
        chain: &mut [Link],
        marks: &mut [Mark],
    ) -> Result<(usize, i64), Refusal> {
        let (h, v) = asked.start(self.count().fonts)?;
        let face = &self.faces[usize::from(asked.font)];
        let w = width(self.bytes.as_slice(), face, asked.size, asked.code).ok_or(Cause::NoCode)?;
        let mark = Mark::Glyph {
            face: asked.font,
            size: asked.size,
            code: asked.code,
            h,
            v,
        };
        put_mark(mark, i64::from(w), marks)
    }
}

// The width of a code at a size; none where the face lacks it.
fn width(bytes: &[u8], face: &TfmFace, size: u32, code: u8) -> Option<i32>
    ensures { result ≡ width_of bytes.now (outline_of face.now) size code }
{
    let code = usize::from(code);
    if !(face.first..face.first + face.count).contains(&code) {
        return None;
    }
    let index = number(bytes, face.characters + 4 * (code - face.first), 1) as usize;
    if index == 0 {
        return None;
    }
    scale(unsigned_at(bytes, face.widths + 4 * index, 4)?, size)
}
