// The checks, and what is known behind them.
ghost use Rattle.std.specs.Prelude.{◌≡◌, ◌^◌, ◌<◌, IfOk, IfErr, Ok, Err, IfSome};
ghost use Rattle.document.specs.Legal.{legal as legal_by};
ghost use Rattle.document.specs.Pages.{page_place};

use crate::documents::Document;
use crate::judged::Judged;
use crate::judged::placing::place_among;
use crate::legality::legal;
use crate::pages::page_place;
use shelf::Refusal;

impl<'a> Judged<'a> {
    // A document, or the first check that it fails.
    pub fn of(bytes: &'a [u8]) -> Result<Judged<'a>, Refusal>
        ensures passed { IfOk result (λ d. (d.bytes.now ≡ bytes.now) × (legal_by bytes.now ≡ Ok d.stated)) }
        ensures refused { IfErr result (λ e. legal_by bytes.now ≡ Err e) }
    {
        let stated = legal(bytes)?;
        Ok(Judged {
            bytes,
            stated,
            places: None,
        })
    }

    pub fn bytes(&self) -> &'a [u8]
        ensures { result.now ≡ self.now.bytes.now }
    {
        self.bytes
    }

    pub fn stated(&self) -> Document
        ensures { result ≡ self.now.stated }
    {
        self.stated
    }

    // The place of page n; none where there is no such page.
    pub fn place(&self, n: usize) -> Option<usize>
        ensures is { result ≡ page_place self.now.bytes.now self.now.stated n }
        ensures bound { IfSome result (λ a. (a < 2 ^ 32) × (n < 65536)) }
    {
        match self.places {
            Some(places) => place_among(places, self.stated, n),
            None => page_place(self.bytes, self.stated, n),
        }
    }
}
