// Legal documents: all checks, in their order.
ghost use Rattle.std.specs.Prelude.{◌≡◌};
ghost use Rattle.document.specs.Legal.{legal as legal_by};

use crate::checks::{check_length, check_start, check_units};
use crate::documents::Document;
use crate::postambles::Postamble;
use shelf::Refusal;

// What a legal document states, or the first check that fails.
#[tactic(auto, unfolding(crate::specs::Legal::legal))]
pub fn legal(bytes: &[u8]) -> Result<Document, Refusal>
    ensures { result ≡ legal_by bytes.now }
{
    check_length(bytes)?;
    check_start(bytes)?;
    check_units(bytes)?;
    let postamble = Postamble::of(bytes);
    postamble.check_ending()?;
    postamble.check_units()?;
    postamble.check_commands()?;
    postamble.check_pages()?;
    Ok(postamble.document())
}
