//! The names at which the states of a contract are counted.

ghost use Rattle.std.specs.Prelude.{◌≡◌, ℕ, List, ◌++◌, map, IfOk, OnOk};
ghost use Rattle.std.specs.List.{flat_map};
ghost use Rattle.tree.specs.Trees.{path_tree, state_tree};
ghost use Rattle.declarations.specs.Declarations.{unnamed_of};
ghost use Rattle.declarations.specs.Numbered.{unnamed_names, indices_named, names_in};

use crate::outline::paths;
use source::{Place, Span};
use std::alloc::{AllocError, Global};
use tree::{Edge, Path, State};

/// The name of a state, or for an unnamed one the message of its edge.
#[derive(Clone, Copy, PartialEq, Eq)]
pub(crate) enum StateName {
    Named(Span),
    Unnamed(Span),
}

impl StateName {
    ghost use Rattle.declarations.specs.Numbered.{counted_as};

    /// Returns its place in the text.
    pub(crate) fn place(self) -> Place
        ensures { (text : List ℕ) → result ≡ (counted_as text self).place }
    {
        match self {
            StateName::Named(span) | StateName::Unnamed(span) => span.place,
        }
    }
}

/// All states of a contract in order, and the indices of the named ones among them.
#[derive(Drop)]
pub(crate) struct StateNames {
    pub(crate) all: Vec<StateName>,
    pub(crate) named: Vec<usize>,
}

/// Returns the states: each named one, followed by the unnamed ones of its paths.
pub(crate) fn state_names(alloc: Global, states: &[&State]) -> Result<StateNames, AllocError>
    ensures all { IfOk result (λ names. names.all.items ≡ flat_map names_in (map (λ s. state_tree s.now) states.now)) }
    ensures named { IfOk result (λ names. names.named.items ≡ indices_named (map (λ s. state_tree s.now) states.now)) }
{
    let mut all = Vec::new(alloc);
    let mut named = Vec::new(alloc);
    for state in states {
        named.push(all.len())?;
        all.push(StateName::Named(state.name))?;
        add_paths(paths(state), &mut all)?;
    }
    Ok(StateNames { all, named })
}

fn add_paths(paths: &[Path], names: &mut Vec<StateName>) -> Result<(), AllocError>
    ensures { OnOk result (names.new.items ≡ names.old.items ++ unnamed_names (flat_map unnamed_of (map path_tree paths.now))) }
{
    for path in paths {
        add_unnamed(&path.others, names)?;
    }
    Ok(())
}

/// Adds the unnamed states of a path, one before each message but the first.
fn add_unnamed(others: &[Edge], names: &mut Vec<StateName>) -> Result<(), AllocError>
    ensures { OnOk result (names.new.items ≡ names.old.items ++ unnamed_names (map (λ e. e.message) others.now)) }
{
    names.reserve(others.len())?;
    for edge in others {
        names.push(StateName::Unnamed(edge.message))?;
    }
    Ok(())
}
