//! Rows and a list of pairs kept for later switches.

ghost use Rattle.std.specs.Prelude.{◌≡◌, [], IfOk};
ghost use Rattle.rows.specs.Rows.{row_model};

use crate::row::Row;
use source::Memory;
use std::alloc::Global;
use std::mem;

/// The greatest number of leaves in all rows that are kept for later switches. A switch with more of them allocates each time: a thousand
/// ways of a thousand variables would take eight megabytes for good.
const MOST_LEAVES: usize = 65_536;

/// Rows and a list of pairs that are not in use, so that a switch can use them again without allocating. Their contents do not matter.
#[derive(Drop)]
pub struct Spare {
    alloc: Global,
    rows: Vec<Row>,
    pairs: Vec<(usize, Row)>,
}

impl Spare {
    /// Makes a `Spare` with nothing in it. Allocates nothing.
    pub fn new(alloc: Global) -> Spare {
        Spare {
            alloc,
            rows: Vec::new(alloc),
            pairs: Vec::new(alloc),
        }
    }

    /// Returns a list without pairs.
    pub fn no_pairs(&mut self) -> Vec<(usize, Row)>
        ensures { result.items ≡ [] }
    {
        let mut pairs = mem::replace(&mut self.pairs, Vec::new(self.alloc));
        pairs.clear();
        pairs
    }

    /// Returns a row of the same leaves as this one.
    ///
    /// # Errors
    /// `Memory` if out of memory.
    pub fn copy_of(&mut self, row: &Row) -> Result<Row, Memory>
        ensures { IfOk result (λ copy. row_model copy ≡ row_model row.now) }
    {
        match self.rows.pop() {
            Some(mut copy) => {
                copy.copy_from(row)?;
                Ok(copy)
            }
            None => row.copy(self.alloc),
        }
    }

    /// Keeps pairs that are no longer needed for a later switch. What it has no room or memory for is dropped.
    pub fn take_back(&mut self, mut pairs: Vec<(usize, Row)>) {
        'pairs: while let Some((_, row)) = pairs.pop() {
            if self.has_room(&row) && self.rows.push(row).is_err() {
                return;
            }
        }
        self.pairs = pairs;
    }

    /// Returns whether a row may be kept beside the others.
    fn has_room(&self, row: &Row) -> bool {
        self.rows.len().saturating_mul(row.leaves().len()) < MOST_LEAVES
    }
}
