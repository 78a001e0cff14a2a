//! A shelf for verdicts.

ghost use Rattle.std.specs.Prelude.{◌≡◌, IfOk, IfErr, None};

use crate::receipt::Receipt;
use crate::so_far::SoFar;
use analyse::Verdict;
use source::Memory;
use std::alloc::Global;
use std::sync::Wait;

/// Verdicts that stay where they were put. Threads share it by reference, and each puts and reads while others do.
#[derive(Drop)]
pub struct Shelf {
    pub(crate) verdicts: boxcar::Vec<Verdict>,
}

impl Shelf {
    ghost use Rattle.shelf.specs.Shelves.{IsOf, verdict_of};
    ghost use Rattle.shelf.specs.SoFar.{last_of, next_index, shelf_of};

    /// Makes an empty shelf.
    ///
    /// # Errors
    /// `Memory` if out of memory.
    pub fn new(alloc: Global) -> Result<Shelf, Memory> {
        Ok(Shelf {
            verdicts: boxcar::Vec::new(alloc)?,
        })
    }

    /// Puts a verdict on the shelf and returns its receipt. Waits while another thread is making room for both.
    ///
    /// # Errors
    /// Gives the verdict back if out of memory. Each receipt reads as before.
    pub fn put<R: Wait>(&self, rt: &R, verdict: Verdict) -> Result<Receipt, Verdict>
        ensures shelf { IfOk result (λ receipt. IsOf receipt self.now) }
        ensures verdict { IfOk result (λ receipt. verdict_of receipt ≡ verdict) }
        ensures back { IfErr result (λ refused. refused ≡ verdict) }
    {
        let pushed = self.verdicts.push_shown(rt, verdict)?;
        Ok(Receipt { pushed })
    }

    /// Returns the verdict that was put for a receipt of this shelf, whatever was put since. Allocates nothing.
    pub fn read<'a>(&'a self, receipt: &Receipt) -> &'a Verdict
        requires { IsOf receipt.now self.now }
        ensures { result.now ≡ verdict_of receipt.now }
    {
        self.verdicts.value(&receipt.pushed)
    }

    /// Returns an iterator over the verdicts that were put so far. Allocates nothing, and any thread may use it while others put.
    pub fn so_far(&self) -> SoFar<'_>
        ensures shelf { shelf_of result ≡ self.now }
        ensures first { next_index result ≡ 0 }
        ensures none { last_of result ≡ None }
    {
        SoFar {
            shelf: self,
            rest: self.verdicts.iter(),
            last: None,
        }
    }
}
