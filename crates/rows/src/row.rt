//! What the variables of a method have.

ghost use Rattle.std.specs.Prelude.{◌≡◌, ◌<◌, ◌≤◌, ◌↔◌, ◌∷◌, ◌++◌, [], All, IfOk, IfSome, IsSome, IsTrue, OnErr, OnOk, length, set};
ghost use Rattle.program.specs.declared.limits.TheConstants.{MOST_VARIABLES};
ghost use Rattle.rows.specs.Leaves.{AreLeaves, IsNumbered, all_numbered_once, is_something};

use program::{MOST_STATES, MOST_VARIABLES, VarId};
use source::Memory;
use std::alloc::Global;

/// What a variable of the exchange heap has.
#[derive(Clone, Copy, Debug, PartialEq, Eq, Hash)]
pub enum Leaf {
    /// Nothing: it was never given anything, or what it had was deleted or given away.
    Nothing,
    /// A struct or an array.
    Block,
    /// An endpoint whose peer is gone and whose queue is empty.
    CutOff,
    /// An endpoint in the state of this number.
    State(u32),
}

impl Leaf {
    /// Returns whether the variable has something.
    pub fn is_something(self) -> bool
        ensures { result ≡ is_something self }
    {
        match self {
            Leaf::Nothing => false,
            Leaf::Block | Leaf::CutOff | Leaf::State(_) => true,
        }
    }

    /// Returns whether the number of a state is one that a state may have.
    fn is_numbered(self) -> bool
        ensures { IsTrue result ↔ IsNumbered self }
    {
        match self {
            Leaf::State(number) => (number as usize) < MOST_STATES,
            Leaf::Nothing | Leaf::Block | Leaf::CutOff => true,
        }
    }
}

/// A leaf for each variable of a method, in order of declaration. There are at most `MOST_VARIABLES`, and the number of a state is
/// less than `MOST_STATES`.
#[derive(Debug, PartialEq, Eq, Hash, Drop)]
pub struct Row {
    leaves: Vec<Leaf>,
    ghost few: { length leaves.items ≤ MOST_VARIABLES },
    ghost numbered: { All IsNumbered leaves.items } by { all_numbered_once leaves.items },
}

impl Row {
    ghost use Rattle.rows.specs.Rows.{is_owned, leaf_at, row_model};

    /// Returns the row of these leaves. `None` if there are more than `MOST_VARIABLES`, or if the number of a state is `MOST_STATES` or
    /// more.
    pub fn of(leaves: Vec<Leaf>) -> Option<Row>
        ensures some { IsSome result ↔ AreLeaves leaves.items }
        ensures row { IfSome result (λ row. row_model row ≡ leaves.items) }
    {
        let few = leaves.len() <= MOST_VARIABLES;
        if few && leaves.iter().all(|leaf| leaf.is_numbered()) {
            return Some(Row { leaves });
        }
        None
    }

    /// Returns the row of these leaves, which are within the limits of a row.
    pub fn from_leaves(leaves: Vec<Leaf>) -> Row
        requires few { length leaves.items ≤ MOST_VARIABLES }
        requires numbered { All IsNumbered leaves.items }
        ensures { row_model result ≡ leaves.items }
    {
        Row { leaves }
    }

    /// Returns a row without leaves. Allocates nothing.
    pub fn empty(alloc: Global) -> Row
        ensures { row_model result ≡ [] }
    {
        Row {
            leaves: Vec::new(alloc),
        }
    }

    /// Removes all leaves and keeps their memory.
    pub fn clear(&mut self)
        ensures { row_model self.new ≡ [] }
    {
        self.leaves.clear();
    }

    /// Appends a leaf.
    ///
    /// # Errors
    /// `Memory` if out of memory; the row is unchanged.
    pub fn push(&mut self, leaf: Leaf) -> Result<(), Memory>
        requires room { length (row_model self.old) < MOST_VARIABLES }
        requires numbered { IsNumbered leaf }
        ensures ok { OnOk result (row_model self.new ≡ row_model self.old ++ leaf ∷ []) }
        ensures err { OnErr result (row_model self.new ≡ row_model self.old) }
    {
        self.leaves.push(leaf)?;
        Ok(())
    }

    /// Replaces its leaves by those of another row.
    ///
    /// # Errors
    /// `Memory` if out of memory; the row may then have any leaves.
    pub fn copy_from(&mut self, other: &Row) -> Result<(), Memory>
        ensures { OnOk result (row_model self.new ≡ row_model other.now) }
    {
        self.clear();
        self.leaves.extend_from_slice(&other.leaves)?;
        Ok(())
    }

    /// Returns its leaves.
    pub fn leaves(&self) -> &[Leaf]
        ensures leaves { result.now ≡ row_model self.now }
        ensures within { AreLeaves result.now }
    {
        &self.leaves
    }

    /// Returns what a variable has: `Nothing` if there is no such variable.
    pub fn leaf(&self, variable: VarId) -> Leaf
        ensures leaf { result ≡ leaf_at (row_model self.now) variable.0 }
        ensures numbered { IsNumbered result }
    {
        match self.leaves.get(variable.0) {
            Some(leaf) => *leaf,
            None => Leaf::Nothing,
        }
    }

    /// Returns whether a variable has something.
    pub fn owns(&self, variable: VarId) -> bool
        ensures { result ≡ is_owned (row_model self.now) variable.0 }
    {
        self.leaf(variable).is_something()
    }

    /// Replaces what a variable has. Nothing changes if there is no such variable.
    pub fn set(&mut self, variable: VarId, leaf: Leaf)
        requires numbered { IsNumbered leaf }
        ensures { row_model self.new ≡ set (row_model self.old) variable.0 leaf }
    {
        if variable.0 < self.leaves.len() {
            self.leaves[variable.0] = leaf;
        }
    }

    /// Returns a row of the same leaves.
    ///
    /// # Errors
    /// `Memory` if out of memory.
    pub fn copy(&self, alloc: Global) -> Result<Row, Memory>
        ensures { IfOk result (λ row. row_model row ≡ row_model self.now) }
    {
        let leaves = Vec::from_slice(alloc, &self.leaves)?;
        Ok(Row { leaves })
    }
}
