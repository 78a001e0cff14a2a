//! The variables in scope, and the numbers of those of the exchange heap.

ghost use Rattle.std.specs.Prelude.{◌≡◌, ℕ, List, length, map, take, OnOk, is_some, option_map};
ghost use Rattle.tree.specs.Trees.{ItemTree};
ghost use Rattle.program.specs.Methods.{variable_model};
ghost use Rattle.resolving.specs.Around.{program_in};
ghost use Rattle.resolving.specs.Frames.{IsLocalFrame, local_of, number_model};
ghost use Rattle.resolving.specs.Messages.{contract_of, end_contract};
ghost use Rattle.resolving.specs.Methods.{no_variables};
ghost use Rattle.resolving.specs.Locals.{LocalFrame, local_named, mention, next_number, number_of};
ghost use Rattle.resolving.specs.Locals.{with_local, with_variable, with_declaration, declared_heap};

use program::{HeapType, Mention, Role, VarId, Variable};
use source::Span;
use std::alloc::{AllocError, Global};
use tables::{ScopedNames, Seed};

/// A variable that is declared: its name, its type, what it holds if it is of the exchange heap, and its role in its method.
#[derive(Clone, Copy)]
pub(crate) struct Declaration {
    pub(crate) name: Span,
    pub(crate) ty: declarations::ValueType,
    pub(crate) held: Option<HeapType>,
    pub(crate) role: Role,
}

/// What the name of a variable in scope means: its type, and its number if it is of the exchange heap.
#[derive(Clone, Copy)]
pub(crate) struct Local {
    ty: declarations::ValueType,
    number: Option<VarId>,
}

/// The variables in scope, the last one of the exchange heap among them, and all variables of the exchange heap that
/// the method has declared so far. No two variables in scope have the same name.
#[derive(Drop)]
pub(crate) struct Locals<'a> {
    names: ScopedNames<'a, Local>,
    last: Option<VarId>,
    variables: Vec<Variable>,
}

impl<'a> Locals<'a> {
    /// Returns an empty scope.
    pub(crate) fn new(alloc: Global, seed: Seed) -> Locals<'a>
        ensures { (text : List ℕ) → IsLocalFrame text no_variables result }
    {
        Locals {
            names: ScopedNames::new(alloc, seed),
            last: None,
            variables: Vec::new(alloc),
        }
    }

    /// Returns the number of variables in scope.
    pub(crate) fn len(&self) -> usize
        ensures { (text : List ℕ) (f : LocalFrame) → IsLocalFrame text f self.now → result ≡ length f.locals }
    {
        self.names.len()
    }

    /// Returns the last variable of the exchange heap in scope.
    pub(crate) fn last(&self) -> Option<VarId>
        ensures { (text : List ℕ) (f : LocalFrame) → IsLocalFrame text f self.now → result ≡ option_map number_of f.last }
    {
        self.last
    }

    /// Returns the variables of the exchange heap, in order of declaration.
    pub(crate) fn into_variables(self) -> Vec<Variable>
        ensures { (text : List ℕ) (f : LocalFrame) → IsLocalFrame text f self.entry → map variable_model result.items ≡ f.variables }
    {
        self.variables
    }

    /// Returns the variable of this name.
    fn find(&self, text: &[u8], name: Span) -> Option<Local>
        ensures { (f : LocalFrame) → IsLocalFrame text.now f self.now
            → result ≡ option_map local_of (local_named text.now f.locals name) }
    {
        self.names.find(name.slice(text))
    }

    /// Returns whether a variable in scope has this name.
    pub(crate) fn is_in_scope(&self, text: &[u8], name: Span) -> bool
        ensures { (f : LocalFrame) → IsLocalFrame text.now f self.now
            → result ≡ is_some (local_named text.now f.locals name) }
    {
        self.find(text, name).is_some()
    }

    /// Returns a mention of the variable of this name, if it is of the exchange heap.
    pub(crate) fn mention(&self, text: &[u8], name: Span) -> Option<Mention>
        ensures { (f : LocalFrame) → IsLocalFrame text.now f self.now → result ≡ mention text.now f.locals name }
    {
        let variable = self.find(text, name)?.number?;
        Some(Mention {
            variable,
            place: name.place,
        })
    }

    /// Returns the type of the variable of this name.
    pub(crate) fn ty(&self, text: &[u8], name: Span) -> Option<declarations::ValueType>
        ensures { (f : LocalFrame) → IsLocalFrame text.now f self.now
            → result ≡ option_map (λ v. v.ty) (local_named text.now f.locals name) }
    {
        let local = self.find(text, name)?;
        Some(local.ty)
    }

    /// Returns the index, among the items, of the contract of the endpoint of this name.
    pub(crate) fn contract(&self, text: &[u8], name: Span) -> Option<usize>
        ensures { (items : List ItemTree) (f : LocalFrame) → IsLocalFrame text.now f self.now
            → result ≡ end_contract (program_in text.now items) f.locals name }
    {
        contract_of(self.find(text, name)?.ty)
    }

    /// Returns the number of the variable that is declared next, if it is of the exchange heap. `held` is what it holds.
    pub(crate) fn next_number(&self, held: Option<HeapType>) -> Option<VarId>
        ensures { (text : List ℕ) (f : LocalFrame) → IsLocalFrame text f self.now → number_model result ≡ next_number held f }
    {
        match held {
            Some(_) => Some(VarId(self.variables.len())),
            None => None,
        }
    }

    /// Declares a variable. It enters the scope unless one there has its name. One of the exchange heap is counted either way.
    pub(crate) fn declare(
        &mut self,
        alloc: Global,
        text: &'a [u8],
        declaration: Declaration,
    ) -> Result<(), AllocError>
        ensures { (f : LocalFrame) → IsLocalFrame text.now f self.old
            → OnOk result (IsLocalFrame text.now (with_declaration text.now declaration f) self.new) }
    {
        match declaration.held {
            Some(held) => self.declare_heap(alloc, text, declaration, held),
            None => self.enter(text, declaration, None),
        }
    }

    /// Declares a variable of the exchange heap.
    fn declare_heap(
        &mut self,
        alloc: Global,
        text: &'a [u8],
        declaration: Declaration,
        held: HeapType,
    ) -> Result<(), AllocError>
        ensures { (f : LocalFrame) → IsLocalFrame text.now f self.old
            → OnOk result (IsLocalFrame text.now (declared_heap text.now declaration held f) self.new) }
    {
        let number = VarId(self.variables.len());
        self.enter(text, declaration, Some(number))?;
        self.count(alloc, text, declaration, held)?;
        self.last = Some(number);
        Ok(())
    }

    /// Brings a variable into scope, unless one there has its name.
    fn enter(
        &mut self,
        text: &'a [u8],
        declaration: Declaration,
        number: Option<VarId>,
    ) -> Result<(), AllocError>
        ensures { (f : LocalFrame) → IsLocalFrame text.now f self.old
            → OnOk result (IsLocalFrame text.now (record {
              locals = with_local text.now declaration
                  (number_model number) f.locals;
              last = f.last;
              variables = f.variables;
            }) self.new) }
    {
        let word = declaration.name.slice(text);
        match self.names.find(word) {
            Some(_) => Ok(()),
            None => {
                let ty = declaration.ty;
                self.names.add(word, Local { ty, number })
            }
        }
    }

    /// Counts one more variable of the exchange heap.
    fn count(
        &mut self,
        alloc: Global,
        text: &[u8],
        declaration: Declaration,
        ty: HeapType,
    ) -> Result<(), AllocError>
        ensures { (f : LocalFrame) → IsLocalFrame text.now f self.old
            → OnOk result (IsLocalFrame text.now (record {
              locals = f.locals;
              last = f.last;
              variables = with_variable text.now declaration ty f.last f.variables;
            }) self.new) }
    {
        let name = Vec::from_slice(alloc, declaration.name.slice(text))?;
        let outer = self.last;
        self.variables.push(Variable {
            name,
            ty,
            role: declaration.role,
            outer,
        })?;
        Ok(())
    }

    /// Leaves a scope: the first `outer` variables stay, and `last` is the last one of the exchange heap among them.
    pub(crate) fn leave(&mut self, outer: usize, last: Option<VarId>)
        ensures { (text : List ℕ) (f : LocalFrame) → IsLocalFrame text f self.old → IsLocalFrame text
            (record { locals = take outer f.locals; last = number_model last; variables = f.variables }) self.new }
    {
        self.names.leave(outer);
        self.last = last;
    }
}

/// Returns the index, among the items, of the contract of an endpoint type.
fn contract_of(ty: declarations::ValueType) -> Option<usize>
    ensures { result ≡ contract_of ty }
{
    match ty {
        declarations::ValueType::Endpoint(_, place) => Some(place),
        _ => None,
    }
}
