//! The variables in scope.

ghost use Rattle.std.specs.Prelude.{◌≡◌, ◌+◌, ℕ, List, [], length, take, OnOk, option_map};
ghost use Rattle.declarations.specs.Mistakes.{Adds};
ghost use Rattle.names.specs.Frames.{IsNameFrame, Turned, variable_model};
ghost use Rattle.names.specs.Variables.{NameFrame, variable_named, past_heap, entered_variable, declared_variable};

use declarations::{Limit, Mistake, ValueType, add_twice};
use program::MOST_VARIABLES;
use source::{Memory, Span};
use std::alloc::Global;
use tables::{ScopedNames, Seed};

/// A variable: the name that declares it, and its type.
#[derive(Clone, Copy, PartialEq, Eq)]
pub(crate) struct ScopeVariable {
    pub(crate) name: Span,
    pub(crate) ty: ValueType,
}

/// The variables in scope, and the number of variables of the exchange heap that the method has declared so far,
/// counted up to one past the limit. No two variables in scope have the same name.
#[derive(Drop)]
pub(crate) struct ScopeVariables<'a> {
    names: ScopedNames<'a, ScopeVariable>,
    heap: usize,
}

impl<'a> ScopeVariables<'a> {
    /// Returns an empty scope.
    pub(crate) fn new(alloc: Global, seed: Seed) -> ScopeVariables<'a>
        ensures { (text : List ℕ) → IsNameFrame text (record { variables = []; heap = 0 }) result }
    {
        ScopeVariables {
            names: ScopedNames::new(alloc, seed),
            heap: 0,
        }
    }

    /// Returns the number of variables in scope.
    pub(crate) fn len(&self) -> usize
        ensures { (text : List ℕ) (f : NameFrame) → IsNameFrame text f self.now → result ≡ length f.variables }
    {
        self.names.len()
    }

    /// Returns the variable of this name.
    pub(crate) fn find(&self, text: &[u8], name: Span) -> Option<ScopeVariable>
        ensures { (f : NameFrame) → IsNameFrame text.now f self.now
            → option_map variable_model result ≡ variable_named text.now f.variables name }
    {
        self.names.find(name.slice(text))
    }

    /// Declares a variable unless one in scope has its name, and adds the mistakes in the declaration.
    pub(crate) fn declare(
        &mut self,
        text: &'a [u8],
        variable: ScopeVariable,
        heap: bool,
        found: &mut Vec<Mistake>,
    ) -> Result<(), Memory>
        ensures { (f : NameFrame) → IsNameFrame text.now f self.old → OnOk result (Turned text.now found.old.items
            found.new.items self.new (declared_variable text.now variable.name variable.ty heap f)) }
    {
        if !heap {
            return self.enter(text, variable, found);
        }
        self.judge_heap(variable.name, found)?;
        self.count();
        self.enter(text, variable, found)
    }

    /// Adds the name of one more variable of the exchange heap if it is one past the limit.
    fn judge_heap(&self, name: Span, found: &mut Vec<Mistake>) -> Result<(), Memory>
        ensures { (text : List ℕ) (f : NameFrame) → IsNameFrame text f self.now
            → OnOk result (Adds found.old.items found.new.items (past_heap name f.heap)) }
    {
        if self.heap != MOST_VARIABLES {
            return Ok(());
        }
        found.push(Mistake::LimitPassed(name.place, Limit::Variables))?;
        Ok(())
    }

    /// Counts one more variable of the exchange heap.
    fn count(&mut self)
        ensures { (text : List ℕ) (f : NameFrame) → IsNameFrame text f self.old
            → IsNameFrame text (record { variables = f.variables; heap = f.heap + 1 }) self.new }
    {
        if self.heap <= MOST_VARIABLES {
            self.heap += 1;
        }
    }

    /// Brings a variable into scope, or adds that another one has its name.
    fn enter(
        &mut self,
        text: &'a [u8],
        variable: ScopeVariable,
        found: &mut Vec<Mistake>,
    ) -> Result<(), Memory>
        ensures { (f : NameFrame) → IsNameFrame text.now f self.old → OnOk result (Turned text.now found.old.items
            found.new.items self.new (entered_variable text.now variable.name variable.ty f)) }
    {
        let word = variable.name.slice(text);
        match self.names.find(word) {
            Some(known) => add_twice(variable.name, Some(known.name), found),
            None => {
                self.names.add(word, variable)?;
                Ok(())
            }
        }
    }

    /// Leaves a scope: the first `outer` variables stay.
    pub(crate) fn leave(&mut self, outer: usize)
        ensures { (text : List ℕ) (f : NameFrame) → IsNameFrame text f self.old
            → IsNameFrame text (record { variables = take outer f.variables; heap = f.heap }) self.new }
    {
        self.names.leave(outer);
    }
}
