// `pages`: shows what a document states of its pages and fonts.
ghost use Rattle.std.specs.Prelude.{◌≡◌, ◌+◌, ◌*◌, ◌^◌, ◌<◌};
ghost use Rattle.numbers.specs.Bytes.{signed_at};

use crate::documents::legal_document;
use document::{entries_of, page_place};
use numbers::signed_at;
use terminal::{Ended, Failure, Output};

// The counters that the beginning of a page has.
const COUNTS: u8 = 10;

pub fn show_pages(rt: &HostRuntime, words: &[String]) -> Result<Ended, Failure> {
    let [path] = words else {
        return Err(Failure::Told(format!(in rt.alloc(); "pages takes one document")?));
    };
    let (file, document) = legal_document(rt, path.as_str())?;
    let bytes = file.as_slice();
    let mut out = Output::new(rt);
    writeln!(out, "pages {} mag {}", document.pages, document.mag);
    for n in 1..=usize::from(document.pages) {
        if let Some(place) = page_place(bytes, document, n) {
            write!(out, "page {n} {place}");
            show_counts(bytes, place, &mut out);
        }
    }
    for (_, definition) in entries_of(bytes, document) {
        if let Some(font) = definition {
            write!(
                out,
                "font {} {} {} {} ",
                font.number, font.size, font.design, font.checksum
            );
            out.write_bytes(font.name);
            writeln!(out, "");
        }
    }
    out.finish()?;
    Ok(Ended::Done)
}

// The ten counts of the page that begins at a place, to the end of the line.
pub fn show_counts(bytes: &[u8], page: usize, out: &mut Output) {
    for k in 0..COUNTS {
        if let Some(count) = count_at(bytes, page, k) {
            write!(out, " {count}");
        }
    }
    writeln!(out, "");
}

// Counter k of the page that begins at a place.
fn count_at(bytes: &[u8], page: usize, k: u8) -> Option<i32>
    ensures { page < 2 ^ 32 → result ≡ signed_at bytes.now (page + 1 + 4 * k) 4 }
{
    signed_at(bytes, page.saturating_add(1 + 4 * usize::from(k)), 4)
}
