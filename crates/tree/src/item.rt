//! Syntax trees: one node for each rule of the grammar, with a field for each optional part.

ghost use Rattle.std.specs.Prelude.{◌≡◌};
ghost use Rattle.tree.specs.Trees.{defined_name, definition_tree};

use crate::class::{Class, Struct};
use crate::contract::Contract;
use source::Span;

/// program = { item } .
#[derive(Drop)]
pub struct Tree {
    pub items: Vec<Item>,
}

/// item = [ access ] ( contract | struct | class ) .
#[derive(Drop)]
pub struct Item {
    pub access: Option<Access>,
    pub definition: Definition,
}

/// What an item declares.
#[derive(Drop)]
pub enum Definition {
    Contract(Contract),
    Struct(Struct),
    Class(Class),
}

impl Definition {
    /// Returns the name that it declares.
    pub fn name(&self) -> Span
        ensures { result ≡ defined_name (definition_tree self.now) }
    {
        match self {
            Definition::Contract(contract) => contract.name,
            Definition::Struct(structure) => structure.name,
            Definition::Class(class) => class.name,
        }
    }
}

/// access = "public" | "private" | "internal" .
#[derive(Clone, Copy)]
pub enum Access {
    Public,
    Private,
    Internal,
}
