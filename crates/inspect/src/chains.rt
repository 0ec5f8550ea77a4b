// The chain of a refusal, each link with the names that the command line has for its numbers.
use answers::Told;
use shelf::Link;
use stacks::font_of;
use terminal::{Options, Output};

// The font of a page's link.
const PAGE: u16 = 65_535;

// The innermost link first. A page is one of the document, where there is one.
pub fn show_chain(links: &[Link], options: &Options, document: Option<&str>, out: &mut Output) {
    for link in links {
        write!(out, "{}", Told(*link));
        show_names(*link, options, document, out);
        writeln!(out, "");
    }
}

fn show_names(link: Link, options: &Options, document: Option<&str>, out: &mut Output) {
    let Link { font, code, place } = link;
    if font == PAGE {
        if let Some(file) = document {
            write!(out, " (page {code}, byte {place} of {file})");
        }
    } else if let Some(font) = font_of(options, usize::from(font)) {
        let name = font.name;
        let file = font.file;
        write!(out, " ({name}, character {code}, byte {place} of {file})");
    }
}
