//! What an item declares, and where each of its names is declared first.

ghost use Rattle.std.specs.Prelude.{◌≡◌, List, ℕ, map, IfOk, option_map, slice_get};
ghost use Rattle.std.specs.Option.{option_copied};
ghost use Rattle.tree.specs.Trees.{ContractTree, ClassTree, contract_tree};
ghost use Rattle.tree.specs.Trees.{class_tree, definition_tree, message_tree, method_tree};
ghost use Rattle.declarations.specs.Declarations.{first_among, names_of_messages, names_of_states};
ghost use Rattle.declarations.specs.Outlines.{outlined_messages, outlined_states};
ghost use Rattle.declarations.specs.Named.{message_written, method_named};

use crate::fields::Fields;
use crate::outline::Outline;
use crate::starts::{Callee, startable_methods};
use crate::state_names::{StateNames, state_names};
use source::Span;
use std::alloc::{AllocError, Global};
use tables::{Seed, Table};
use tree::{Class, Contract, Definition, Message, Method};

/// The declarations of a contract, where each of its names is declared first, and the names at which its states are counted.
#[derive(Drop)]
pub struct Declared<'a> {
    pub(crate) outline: Outline<'a>,
    pub(crate) messages: Table<'a>,
    pub(crate) states: Table<'a>,
    pub(crate) counted: StateNames,
}

/// The methods of a class, whether each can be started, and where each of their names is declared first.
#[derive(Drop)]
pub struct ClassMethods<'a> {
    pub(crate) list: &'a [Method],
    /// Computed once for each method, so that no start of it reads all of its parameters.
    pub(crate) startable: Vec<bool>,
    pub(crate) table: Table<'a>,
}

/// What an item declares.
#[derive(Drop)]
pub enum Members<'a> {
    Contract(Declared<'a>),
    Struct(Fields<'a>),
    Class(ClassMethods<'a>),
}

impl<'a> Members<'a> {
    ghost use Rattle.declarations.specs.Scopes.{AreMembers, as_declared, as_fields, as_methods};

    /// Returns what a definition declares.
    pub(crate) fn of(
        alloc: Global,
        seed: Seed,
        text: &'a [u8],
        definition: &'a Definition,
    ) -> Result<Members<'a>, AllocError>
        ensures { IfOk result (AreMembers text.now (definition_tree definition.now)) }
    {
        match definition {
            Definition::Contract(contract) => {
                Ok(Members::Contract(Declared::of(alloc, seed, text, contract)?))
            }
            Definition::Struct(structure) => {
                Ok(Members::Struct(Fields::of(alloc, seed, text, structure)?))
            }
            Definition::Class(class) => Ok(Members::Class(ClassMethods::of(
                alloc, seed, text, class,
            )?)),
        }
    }

    /// Returns the declarations of a contract, if it is one.
    pub(crate) fn contract(&self) -> Option<&Declared<'a>>
        ensures { option_copied result ≡ as_declared self.now }
    {
        match self {
            Members::Contract(declared) => Some(declared),
            _ => None,
        }
    }

    /// Returns the fields of a struct, if it is one.
    pub(crate) fn fields(&self) -> Option<&Fields<'a>>
        ensures { option_copied result ≡ as_fields self.now }
    {
        match self {
            Members::Struct(fields) => Some(fields),
            _ => None,
        }
    }

    /// Returns the methods of a class, if it is one.
    pub(crate) fn methods(&self) -> Option<&ClassMethods<'a>>
        ensures { option_copied result ≡ as_methods self.now }
    {
        match self {
            Members::Class(methods) => Some(methods),
            _ => None,
        }
    }
}

impl<'a> Declared<'a> {
    ghost use Rattle.declarations.specs.Scopes.{IsDeclared};

    /// Returns the declarations of a contract.
    pub(crate) fn of(
        alloc: Global,
        seed: Seed,
        text: &'a [u8],
        contract: &'a Contract,
    ) -> Result<Declared<'a>, AllocError>
        ensures { IfOk result (IsDeclared text.now (contract_tree contract.now)) }
    {
        let outline = Outline::of(alloc, contract)?;
        let messages = outline.message_names(alloc)?;
        let states = outline.state_names(alloc)?;
        let messages = Table::of(alloc, seed, text, &messages)?;
        let states = Table::of(alloc, seed, text, &states)?;
        let counted = state_names(alloc, &outline.states)?;
        Ok(Declared {
            outline,
            messages,
            states,
            counted,
        })
    }

    /// Returns the first message of this name.
    pub(crate) fn message(&self, word: &[u8]) -> Option<&'a Message>
        ensures { (text : List ℕ) (c : ContractTree) → IsDeclared text c self.now
            → option_map (λ m. message_tree m.now) result ≡ message_written text c word.now }
    {
        let index = self.messages.find(word)?;
        self.outline.messages.get(index).copied()
    }

    /// Returns the index, among all states, of the named state at this index.
    pub(crate) fn named_index(&self, index: usize) -> Option<usize>
        ensures { result ≡ slice_get self.now.counted.named.items index }
    {
        self.counted.named.get(index).copied()
    }
}

impl<'a> ClassMethods<'a> {
    ghost use Rattle.declarations.specs.Scopes.{AreMethods, IsCallee};

    /// Returns the methods of a class.
    pub(crate) fn of(
        alloc: Global,
        seed: Seed,
        text: &'a [u8],
        class: &'a Class,
    ) -> Result<ClassMethods<'a>, AllocError>
        ensures { IfOk result (AreMethods text.now (class_tree class.now)) }
    {
        let names = names_of_methods(alloc, &class.methods)?;
        let table = Table::of(alloc, seed, text, &names)?;
        let startable = startable_methods(alloc, &class.methods)?;
        Ok(ClassMethods {
            list: &class.methods,
            startable,
            table,
        })
    }

    /// Returns the index of the first method of this name.
    pub(crate) fn index_of(&self, text: &[u8], name: Span) -> Option<usize>
        ensures { (c : ClassTree) → AreMethods text.now c self.now
            → result ≡ first_among text.now (map (λ m. m.name) c.methods) name }
    {
        self.table.find(name.slice(text))
    }

    /// Returns the methods, in order.
    pub fn list(&self) -> &'a [Method]
        ensures { result.now ≡ self.now.list.now }
    {
        self.list
    }

    /// Returns the first method of this name, and whether it can be started.
    pub fn find(&self, text: &[u8], name: Span) -> Option<Callee<'a>>
        ensures { (c : ClassTree) → AreMethods text.now c self.now
            → IsCallee (method_named text.now c name) result }
    {
        let index = self.index_of(text, name)?;
        self.callee(index)
    }

    /// Returns the method at this index, and whether it can be started.
    fn callee(&self, index: usize) -> Option<Callee<'a>>
        ensures { (c : ClassTree) (text : List ℕ) → AreMethods text c self.now → IsCallee (slice_get c.methods index) result }
    {
        let method = self.list.get(index)?;
        let startable = *self.startable.get(index)?;
        Some(Callee { method, startable })
    }
}

impl<'a> Outline<'a> {
    /// Returns the names of the messages, in order.
    pub(crate) fn message_names(&self, alloc: Global) -> Result<Vec<Span>, AllocError>
        ensures { IfOk result (λ names. names.items ≡ names_of_messages (outlined_messages self.now)) }
    {
        let mut names = Vec::new(alloc);
        for message in &self.messages {
            names.push(message.name)?;
        }
        Ok(names)
    }

    /// Returns the names of the states, in order.
    pub(crate) fn state_names(&self, alloc: Global) -> Result<Vec<Span>, AllocError>
        ensures { IfOk result (λ names. names.items ≡ names_of_states (outlined_states self.now)) }
    {
        let mut names = Vec::new(alloc);
        for state in &self.states {
            names.push(state.name)?;
        }
        Ok(names)
    }
}

/// Returns the names of these methods, in order.
pub(crate) fn names_of_methods(alloc: Global, methods: &[Method]) -> Result<Vec<Span>, AllocError>
    ensures { IfOk result (λ names. names.items ≡ map (λ m. m.name) methods.now) }
{
    let mut names = Vec::new(alloc);
    for method in methods {
        names.push(method.name)?;
    }
    Ok(names)
}
