// The checks of a document's length, its start and its units, and what stands at its end.
ghost use Rattle.std.specs.Prelude.{◌≡◌, ◌≢◌, ℕ, ◌<◌, ◌≤◌, length, slice_index, IfSome, IfNone};
ghost use Rattle.document.specs.Pages.{past_comment};
ghost use Rattle.document.specs.Legal.{sized, started, unit_at, units_before, bare};

use numbers::number;
use shelf::Refusal;

const LEAST_LENGTH: usize = 54;

const MOST_LENGTH: usize = 16_777_216;

// num and den of every document: its lengths are in 1/65,536 printer's points.
pub(crate) const NUM: u32 = 25_400_000;

pub(crate) const DEN: u32 = 473_628_672;

const MOST_MAG: u32 = 32_768;

const FILL: u8 = 223;

pub(crate) fn check_length(bytes: &[u8]) -> Result<(), Refusal>
    ensures { result ≡ sized bytes.now }
{
    let length = bytes.len();
    if (LEAST_LENGTH..=MOST_LENGTH).contains(&length) {
        Ok(())
    } else {
        Err(Refusal::DocumentLength { length })
    }
}

pub(crate) fn check_start(bytes: &[u8]) -> Result<(), Refusal>
    ensures { result ≡ started bytes.now }
{
    match bytes {
        [247, 2, ..] => Ok(()),
        [247, ..] => Err(Refusal::NotDocument { place: 1 }),
        _ => Err(Refusal::NotDocument { place: 0 }),
    }
}

#[tactic(auto, unfolding(crate::specs::Bytes::four))]
pub(crate) fn check_units(bytes: &[u8]) -> Result<(), Refusal>
    ensures { result ≡ units_before bytes.now }
{
    check_number(bytes, 2, NUM)?;
    check_number(bytes, 6, DEN)?;
    if (1..=MOST_MAG).contains(&number(bytes, 10, 4)) {
        Ok(())
    } else {
        Err(Refusal::WrongUnits { place: 10 })
    }
}

// Whether a unit stands in four bytes at a place.
#[tactic(auto, unfolding(crate::specs::Bytes::four))]
pub(crate) fn check_number(bytes: &[u8], place: usize, unit: u32) -> Result<(), Refusal>
    ensures { result ≡ unit_at bytes.now place unit }
{
    if number(bytes, place, 4) == unit {
        Ok(())
    } else {
        Err(Refusal::WrongUnits { place })
    }
}

// The length without the 223s at the end.
pub(crate) fn bare_length(bytes: &[u8]) -> usize
    ensures { result ≡ bare bytes.now (length bytes.now) }
{
    last_other(bytes).map_or(0, |i| i + 1)
}

// The place of the last byte that is no 223.
fn last_other(bytes: &[u8]) -> Option<usize>
    ensures none { IfNone result ((k : ℕ) → k < length bytes.now → slice_index bytes.now k ≡ 223) }
    ensures some { IfSome result (λ i. (i < length bytes.now) × (slice_index bytes.now i ≢ 223)) }
    ensures behind { (k : ℕ) → IfSome result (λ i. i < k → k < length bytes.now → slice_index bytes.now k ≡ 223) }
{
    bytes.iter().rposition(|b| *b != FILL)
}

// The place after the comment.
pub(crate) fn past_comment(bytes: &[u8]) -> usize
    ensures { result ≡ past_comment bytes.now }
{
    15 + number(bytes, 14, 1) as usize
}
