// The pointer of the last page, as it stands in the output.
ghost use Rattle.std.specs.Prelude.{◌≡◌, List};
ghost use Rattle.copies.specs.declared.pairs.Pair.{Pair as Entry};
ghost use Rattle.ledgers.specs.Steps.{is_pointer as is_pointer_of, pointer_back};
ghost use Rattle.writing.specs.Standings.{progress_of};

use numbers::number;
use writing::Standing;

const BOP: u32 = 139;

// The place of the page before the last, -1 where there is none; none where the last page's bop or pointer does not stand
// there.
#[tactic(auto, unfolding(document::specs::Bytes::four))]
pub(crate) fn pointer_back(standing: Standing, out: &[u8]) -> Option<u32>
    ensures { (ps : List Entry) → result ≡ pointer_back (progress_of standing ps) out.now }
{
    let last = standing.last as usize;
    let pointer = number(out, last + 41, 4);
    if number(out, last, 1) == BOP && is_pointer(standing, pointer) {
        Some(pointer)
    } else {
        None
    }
}

// Whether a pointer can be that of the last page: -1 where that is the first, and else to a place behind the preamble with
// 46 bytes before the last page.
fn is_pointer(standing: Standing, pointer: u32) -> bool
    ensures { (ps : List Entry) → result ≡ is_pointer_of (progress_of standing ps) pointer }
{
    if standing.pages == 1 {
        pointer == u32::MAX
    } else {
        pointer >= 15 && u64::from(pointer) + 46 <= u64::from(standing.last)
    }
}
