// Marks and links put into the caller's lists as records.
ghost use Rattle.std.specs.Prelude.{◌≡◌, map};
ghost use Rattle.shelf.specs.Answers.{overlay};
ghost use Rattle.fulatzebi.specs.Records.{mark_record, link_record};

use crate::records::{LinkRecord, MarkRecord};
use shelf::{Link, Mark};

const GLYPH: u32 = 1;

const RULE: u32 = 2;

impl MarkRecord {
    pub(crate) fn of(mark: Mark) -> MarkRecord
        ensures { result ≡ mark_record mark }
    {
        match mark {
            Mark::Glyph {
                face,
                size,
                code,
                h,
                v,
            } => MarkRecord {
                kind: GLYPH,
                face: u32::from(face),
                size,
                code: u32::from(code),
                height: 0,
                width: 0,
                h,
                v,
            },
            Mark::Rule {
                height,
                width,
                h,
                v,
            } => MarkRecord {
                kind: RULE,
                face: 0,
                size: 0,
                code: 0,
                height,
                width,
                h,
                v,
            },
        }
    }
}

impl LinkRecord {
    pub(crate) fn of(link: Link) -> LinkRecord
        ensures { result ≡ link_record link }
    {
        LinkRecord {
            font: u32::from(link.font),
            code: u32::from(link.code),
            place: link.place,
        }
    }
}

// Written over the front of the caller's list, as far as it has room.
pub(crate) fn put_marks(from: &[Mark], to: &mut [MarkRecord])
    ensures { to.new ≡ overlay (map mark_record from.now) to.old }
{
    // By place: `iter_mut` behind an adapter does not say what it has written so far.
    for k in 0..from.len().min(to.len()) {
        to[k] = MarkRecord::of(from[k]);
    }
}

pub(crate) fn put_links(from: &[Link], to: &mut [LinkRecord])
    ensures { to.new ≡ overlay (map link_record from.now) to.old }
{
    for k in 0..from.len().min(to.len()) {
        to[k] = LinkRecord::of(from[k]);
    }
}
