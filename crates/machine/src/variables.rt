//! The variables of a frame.

ghost use Rattle.std.specs.Prelude.{◌≡◌, ◌+◌, ◌++◌, ◌∷◌, ◌<◌, ◌^◌, [], IfErr, IfOk, OnErr, OnOk, Some, set, ℕ};
ghost use Rattle.machine.specs.Bindings.{AreSorted, IsAt, IsGap, MayTake, address_of, variables_in};
ghost use Rattle.machine.specs.Once.{sorted_once};
ghost use Rattle.machine.specs.World.{read};

use program::VarId;
use std::alloc::{AllocError, Global};

/// A variable and the address that it has, if any. It takes 16 bytes; an `Option` of the address would make it 24.
#[derive(Clone, Copy)]
pub(crate) struct Binding {
    has_address: bool,
    variable: u32,
    address: usize,
}

impl Binding {
    /// Returns the binding of a variable that has this.
    fn new(variable: u32, x: Option<usize>) -> Binding
        ensures variable { result.variable ≡ variable }
        ensures has { address_of result ≡ x }
    {
        match x {
            Some(address) => Binding {
                has_address: true,
                variable,
                address,
            },
            None => Binding {
                has_address: false,
                variable,
                address: 0,
            },
        }
    }

    /// Returns the address that the variable has, if any.
    fn has(self) -> Option<usize>
        ensures { result ≡ address_of self }
    {
        if self.has_address {
            Some(self.address)
        } else {
            None
        }
    }
}

/// What each exchange-heap variable of a method has: an address, or nothing.
///
/// Only variables that were ever given something take memory. Such a variable has a binding and keeps it when it is
/// emptied, so giving it something again does not allocate. The bindings are sorted by variable.
#[derive(Drop)]
pub struct Variables {
    count: usize,
    bindings: Vec<Binding>,
    ghost kept: { AreSorted count bindings.items } by { sorted_once _ _ },
}

impl Variables {
    /// Returns an empty list of variables.
    pub(crate) fn new(alloc: Global) -> Variables
        ensures none { variables_in result.count result.bindings.items ≡ [] }
        ensures count { result.count ≡ 0 }
    {
        Variables {
            count: 0,
            bindings: Vec::new(alloc),
        }
    }

    /// Returns an empty list of variables with capacity for exactly this many bindings.
    pub(crate) fn with_capacity(alloc: Global, most: usize) -> Result<Variables, AllocError>
        ensures none { IfOk result (λ v. variables_in v.count v.bindings.items ≡ []) }
        ensures count { IfOk result (λ v. v.count ≡ 0) }
    {
        Ok(Variables {
            count: 0,
            bindings: Vec::with_capacity(alloc, most)?,
        })
    }

    /// Appends a variable that has this. `Err` if out of memory, or if its number needs more than 32 bits and it has
    /// an address.
    pub(crate) fn push(&mut self, x: Option<usize>) -> Result<(), AllocError>
        requires fits { self.old.count + 1 < 2 ^ 64 }
        ensures more { OnOk result (variables_in self.new.count self.new.bindings.items
            ≡ variables_in self.old.count self.old.bindings.items ++ x ∷ []) }
        ensures count { OnOk result (self.new.count ≡ self.old.count + 1) }
    {
        let Some(address) = x else {
            self.count += 1;
            return Ok(());
        };
        let Ok(variable) = u32::try_from(self.count) else {
            return Err(AllocError);
        };
        let last = self.bindings.len();
        self.bindings
            .insert(last, Binding::new(variable, Some(address)))?;
        self.count += 1;
        Ok(())
    }

    /// Returns the number of variables.
    pub fn len(&self) -> usize
        ensures { result ≡ self.now.count }
    {
        self.count
    }

    /// Returns the index of a variable's binding. `Err` is the index at which to insert one.
    fn search(&self, v: VarId) -> Result<usize, usize>
        ensures found { IfOk result (IsAt self.now.bindings.items v.0) }
        ensures absent { IfErr result (IsGap self.now.bindings.items v.0) }
    {
        // If each variable before it has a binding, its own is at its number.
        if let Some(binding) = self.bindings.get(v.0) {
            if binding.variable as usize == v.0 {
                return Ok(v.0);
            }
        }
        self.search_all(v)
    }

    /// Does the same by a binary search among all bindings.
    fn search_all(&self, v: VarId) -> Result<usize, usize>
        ensures found { IfOk result (IsAt self.now.bindings.items v.0) }
        ensures absent { IfErr result (IsGap self.now.bindings.items v.0) }
    {
        self.bindings
            .binary_search_by_key(&v.0, |binding| binding.variable as usize)
    }

    /// Returns the address that a variable has, if any.
    pub fn has(&self, v: VarId) -> Option<usize>
        ensures { result ≡ read (variables_in self.now.count self.now.bindings.items) v.0 }
    {
        match self.search(v) {
            Ok(at) => self.bindings[at].has(),
            Err(_) => None,
        }
    }

    /// Makes a binding for a variable that has none, so that `put` may give it something. Does nothing for a number
    /// that no variable has.
    ///
    /// `Err` if out of memory, or if the number needs more than 32 bits, which that of no variable does.
    pub(crate) fn list(&mut self, v: VarId) -> Result<(), AllocError>
        ensures same { variables_in self.new.count self.new.bindings.items ≡ variables_in self.old.count self.old.bindings.items }
        ensures takes { OnOk result (MayTake self.new.count self.new.bindings.items v.0) }
        ensures still { (u : ℕ) → MayTake self.old.count self.old.bindings.items u → MayTake self.new.count self.new.bindings.items u }
    {
        if v.0 >= self.count {
            return Ok(());
        }
        let Err(at) = self.search(v) else {
            return Ok(());
        };
        let Ok(variable) = u32::try_from(v.0) else {
            return Err(AllocError);
        };
        self.bindings.insert(at, Binding::new(variable, None))?;
        Ok(())
    }

    /// Replaces what a variable has. It never allocates: call `list` before a variable is given an address.
    pub(crate) fn put(&mut self, v: VarId, x: Option<usize>)
        requires takes { (a : ℕ) → x ≡ Some a → MayTake self.old.count self.old.bindings.items v.0 }
        ensures put { variables_in self.new.count self.new.bindings.items
            ≡ set (variables_in self.old.count self.old.bindings.items) v.0 x }
        ensures still { (u : ℕ) → MayTake self.old.count self.old.bindings.items u → MayTake self.new.count self.new.bindings.items u }
    {
        if let Ok(at) = self.search(v) {
            self.bindings[at] = Binding::new(self.bindings[at].variable, x);
        }
    }
}

impl Clone for Variables {
    ghost use Rattle.machine.specs.Views.{variables_model};

    ghost is_clone = { λ v w. variables_model w ≡ variables_model v };

    fn clone(&self) -> Result<Variables, AllocError> {
        Ok(Variables {
            count: self.count,
            bindings: self.bindings.clone()?,
        })
    }
}
