//! The breaches that a search finds in a method.

ghost use Rattle.std.specs.Prelude.{◌≡◌, ◌↔◌, [], Contains, IfOk, OnOk};
ghost use Rattle.rules.specs.declared.breach.Breach.{Breach as BreachModel};

use rules::Breach;
use rules::laws::equal_breaches_are_one;
use source::Memory;
use std::alloc::Global;

/// Late breaches are merged during a search only if there are at least this many.
const FEW_BREACHES: usize = 64;

/// The breaches that a search has found in a method so far, each at least once.
///
/// Most come in ascending order, and then a list costs less than a sorted set.
#[derive(Drop)]
pub(crate) struct Breaches {
    /// In ascending order, each once.
    ascending: Vec<Breach>,
    /// Those that were less than the last one of `ascending` and not in it; perhaps more than once.
    late: Vec<Breach>,
}

impl Breaches {
    ghost use Rattle.analyse.specs.Found.{breaches_of};
    ghost use Rattle.analyse.specs.Searches.{Gains};

    /// Returns an empty list of breaches, without allocating.
    pub(crate) fn new(alloc: Global) -> Breaches
        ensures { breaches_of result ≡ [] }
    {
        Breaches {
            ascending: Vec::new(alloc),
            late: Vec::new(alloc),
        }
    }

    /// Adds a breach. If it is late, and there are at least as many late ones as others and at least 64, these are
    /// merged first. So the lists have at most twice as many breaches as are different, or 64 more, and adding one
    /// takes logarithmic time on average.
    ///
    /// # Errors
    /// `Memory` if out of memory.
    pub(crate) fn note(&mut self, breach: Breach) -> Result<(), Memory>
        ensures gains { OnOk result (Gains (breaches_of self.old) breach (breaches_of self.new)) }
    {
        equal_breaches_are_one();
        let ascends = match self.ascending.last() {
            Some(last) => *last < breach,
            None => true,
        };
        if ascends {
            self.ascending.push(breach)?;
            return Ok(());
        }
        if self.ascending.binary_search(&breach).is_ok() {
            return Ok(());
        }
        if self.late.len() >= self.ascending.len().max(FEW_BREACHES) {
            self.merge()?;
        }
        self.late.push(breach)?;
        Ok(())
    }

    /// Merges the late breaches into the others.
    ///
    /// # Errors
    /// `Memory` if out of memory.
    fn merge(&mut self) -> Result<(), Memory>
        ensures same { OnOk result ((b : BreachModel) → Contains (breaches_of self.new) b ↔ Contains (breaches_of self.old) b) }
        ensures none_late { OnOk result (self.new.late.items ≡ []) }
    {
        equal_breaches_are_one();
        if self.late.is_empty() {
            return Ok(());
        }
        self.ascending.append(&mut self.late)?;
        self.ascending.sort_unstable();
        self.ascending.dedup();
        Ok(())
    }

    /// Returns the breaches in ascending order, each once.
    ///
    /// # Errors
    /// `Memory` if out of memory.
    pub(crate) fn into_different(mut self) -> Result<Vec<Breach>, Memory>
        ensures same { IfOk result (λ breaches. (b : BreachModel) → Contains breaches.items b ↔ Contains (breaches_of self) b) }
    {
        self.merge()?;
        Ok(self.ascending)
    }
}
