// What a call answers, put into the caller's record.
ghost use Rattle.std.specs.Prelude.{◌≡◌};
ghost use Rattle.fulatzebi.specs.Answers.{accepted, refused, refusal_value, refusal_links, why_number, step_number, step_rank, step_index};

use crate::records::Answer;
use crate::stops::{Step, Stop, Why};

// The numbers that are no refusals of the library.
const NO_MEMORY: u32 = 100;

const BAD_RECORD: u32 = 101;

impl Why {
    fn number(self) -> u32
        ensures { result ≡ why_number self }
    {
        match self {
            Why::Refused(refusal) => u32::from(refusal.number()),
            Why::NoMemory => NO_MEMORY,
            Why::BadRecord => BAD_RECORD,
        }
    }

    // The length, place or entry beside it; 0 where there is none.
    fn value(self) -> usize
        ensures { result ≡ refusal_value self }
    {
        match self {
            Why::Refused(refusal) => refusal.value().unwrap_or(0),
            _ => 0,
        }
    }

    // How many links its chain has.
    fn links(self) -> usize
        ensures { result ≡ refusal_links self }
    {
        match self {
            Why::Refused(refusal) => refusal.links().unwrap_or(0),
            _ => 0,
        }
    }
}

impl Step {
    fn number(self) -> u32
        ensures { result ≡ step_number self }
    {
        match self {
            Step::Call => 0,
            Step::Font { rank: _, index: _ } => 1,
            Step::Document => 2,
            Step::Page { index: _ } => 3,
            Step::Closing => 4,
        }
    }

    fn rank(self) -> u32
        ensures { result ≡ step_rank self }
    {
        match self {
            Step::Font { rank, index: _ } => rank,
            _ => 0,
        }
    }

    fn index(self) -> usize
        ensures { result ≡ step_index self }
    {
        match self {
            Step::Font { rank: _, index } | Step::Page { index } => index,
            _ => 0,
        }
    }
}

impl Answer {
    pub(crate) fn accepted(marks: usize, length: usize) -> Answer
        ensures { result ≡ accepted marks length }
    {
        Answer {
            number: 0,
            step: 0,
            rank: 0,
            index: 0,
            value: 0,
            links: 0,
            marks,
            length,
        }
    }

    pub(crate) fn refused(stop: Stop, marks: usize) -> Answer
        ensures { result ≡ refused stop marks }
    {
        Answer {
            number: stop.why.number(),
            step: stop.step.number(),
            rank: stop.step.rank(),
            index: stop.step.index(),
            value: stop.why.value(),
            links: stop.why.links(),
            marks,
            length: 0,
        }
    }
}
