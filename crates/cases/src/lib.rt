// Worked examples: those about definitions as one theorem, those about calls as tests.
#![tactic(auto)]

ghost use Rattle.cases.specs.Examples.{WorkedExamples};
ghost use Rattle.cases.specs.Worked.{WorkedValues};

#[cfg(test)]
mod characters;
#[cfg(test)]
mod entries;
#[cfg(test)]
mod pages;
#[cfg(test)]
mod ranks;
#[cfg(test)]
mod sample;

// The worked values of docs/FORMATS.md and docs/REFUSALS.md follow from the definitions that the contracts cite.
#[tactic(auto, unfolding(numbers::specs::FixWords::scaled, numbers::specs::FixWords::halvings))]
pub fn worked_values()
    ensures { WorkedValues }
{}

// The worked examples of docs/FORMATS.md and docs/RUNS.md follow from the definitions: a page copied through a virtual font,
// struck, and the file closed.
pub fn worked_examples()
    ensures { WorkedExamples }
{}
