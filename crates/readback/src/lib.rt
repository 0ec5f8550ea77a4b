// Pages that were written read back as their marks.
#![tactic(auto)]

ghost use Rattle.readback.specs.Cases.{WorkedMarks};
ghost use Rattle.readback.specs.Reading.{PagesReadBack};

// A written page, read over the faces alone, has the marks that it was written from.
#[tactic(auto, using(crate::proofs::Pages::page_read))]
pub fn pages_read_back()
    ensures { PagesReadBack }
{}

// Short lists of marks have the bytes that are stated for them.
#[tactic(auto, unfolding(copies::specs::Pairs::pair_by, copies::specs::Marks::move_bytes, copies::specs::Marks::define_bytes, copies::specs::Marks::mark_bytes, copies::specs::Marks::pen_after, copies::specs::Marks::marks_bytes, copies::specs::Marks::pen_after_all))]
pub fn worked_marks()
    ensures { WorkedMarks }
{}
