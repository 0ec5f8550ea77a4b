// The chain of a fault, as one level after the other passes it on.
ghost use Rattle.std.specs.Prelude.{◌≡◌, ℕ};
ghost use Rattle.shelf.specs.Answers.{link_count, link_written};
ghost use Rattle.shelf.specs.declared.refusals.Cause.{Cause as Reason};
ghost use Rattle.shelf.specs.declared.refusals.Refusal.TheVariants.{Fault, MarksFull};

use crate::marks::Link;
use crate::refusals::Refusal;

// A chain has no more links than this; any further one is dropped.
const MAX_LINKS: usize = 65_535;

// A refusal from below, passed on by a packet or a page: a fault has this level's link after those it has.
pub fn pass_on(e: Refusal, link: Link, chain: &mut [Link]) -> Refusal
    ensures fault { (k : Reason) (n : ℕ) → e ≡ Fault k n → (result ≡ Fault k (link_count n)) × (chain.new ≡ link_written n link chain.old) }
    ensures full { e ≡ MarksFull → (result ≡ MarksFull) × (chain.new ≡ chain.old) }
{
    match e {
        Refusal::Fault { cause, links } => {
            let links = add_link(links, link, chain);
            Refusal::Fault { cause, links }
        }
        _ => e,
    }
}

// One link more after `links` of them, and how many there are then; beyond the caller's list it is only counted.
fn add_link(links: usize, link: Link, chain: &mut [Link]) -> usize
    ensures count { result ≡ link_count links }
    ensures chain { chain.new ≡ link_written links link chain.old }
{
    if links >= MAX_LINKS {
        return links;
    }
    if links < chain.len() {
        chain[links] = link;
    }
    links + 1
}
