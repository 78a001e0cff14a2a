//! The verdicts that were put so far.

ghost use Rattle.std.specs.Prelude.{◌≡◌, MatchOption, option_map};
ghost use Rattle.std.specs.Iterator.{at_most};

use crate::receipt::Receipt;
use crate::shelf::Shelf;
use analyse::Verdict;
use boxcar::Iter;

/// An iterator over the verdicts that were put so far, each once, in order of their indices on the shelf.
///
/// A verdict whose `put` had not returned when the iterator was made may be included or not.
#[derive(Drop)]
pub struct SoFar<'a> {
    pub(crate) shelf: &'a Shelf,
    pub(crate) rest: Iter<'a, Verdict>,
    pub(crate) last: Option<Receipt>,
}

impl<'a> SoFar<'a> {
    ghost use Rattle.shelf.specs.SoFar.{last_of};

    /// Returns the receipt of the latest verdict. `None` before the first one.
    pub fn receipt(&self) -> Option<&Receipt>
        ensures { option_map (λ receipt. receipt.now) result ≡ last_of self.now }
    {
        self.last.as_ref()
    }
}

impl<'a> Iterator for SoFar<'a> {
    ghost use Rattle.shelf.specs.SoFar.{ComesToEnd, GivesVerdict, indices_left, shelf_of};

    type Item = &'a Verdict;

    ghost next_gives = { λ old item new. (shelf_of new ≡ shelf_of old)
        × MatchOption item (ComesToEnd old new) (λ verdict. GivesVerdict old verdict.now new) };

    ghost remaining = { λ so_far. at_most (indices_left so_far) };

    /// Returns a verdict that was put, at an index after all those that were passed. `None` once no index is left.
    fn next(&mut self) -> Option<&'a Verdict> {
        while let Some((index, _)) = self.rest.next() {
            if let Some(pushed) = self.shelf.verdicts.witness(index) {
                let receipt = Receipt { pushed };
                let verdict = self.shelf.read(&receipt);
                self.last = Some(receipt);
                return Some(verdict);
            }
        }
        None
    }
}
