//! The names at which states are counted.

ghost use Rattle.std.specs.Prelude.{◌≡◌, ◌≤◌, ◌↔◌, ◌++◌, length, map, IsTrue, OnOk, IfOk};
ghost use Rattle.std.specs.List.{flat_map};
ghost use Rattle.tree.specs.Trees.{path_tree, state_tree};
ghost use Rattle.declarations.specs.Declarations.{unnamed_of, counted_states};
ghost use Rattle.declarations.specs.Outlines.{outlined_states};
ghost use Rattle.declarations.specs.Scopes.{declared_among};

use crate::members::Members;
use crate::outline::paths;
use source::Span;
use std::alloc::{AllocError, Global};
use tree::{Edge, Path, State};

/// Returns the names at which the states of the contracts among these items are counted: a named state at its own
/// name, an unnamed one at the message of its edge.
pub(crate) fn all_counted(alloc: Global, items: &[Members<'_>]) -> Result<Vec<Span>, AllocError>
    ensures { IfOk result (λ names. names.items
        ≡ flat_map (λ m. flat_map (λ d. counted_states (outlined_states d.outline)) (declared_among m)) items.now) }
{
    let mut names = Vec::new(alloc);
    for item in items {
        add_counted(&mut names, item)?;
    }
    Ok(names)
}

/// Returns whether the contracts among these items have at most `most` states.
pub(crate) fn are_few(items: &[Members<'_>], most: usize) -> bool
    ensures { IsTrue result ↔ (length (flat_map (λ m. flat_map (λ d. d.counted.all.items) (declared_among m)) items.now) ≤ most) }
{
    let mut left = most;
    for item in items {
        match left.checked_sub(state_count(item)) {
            Some(rest) => left = rest,
            None => return false,
        }
    }
    true
}

/// Returns the number of states of an item; 0 if it is no contract.
fn state_count(item: &Members<'_>) -> usize
    ensures { result ≡ length (flat_map (λ d. d.counted.all.items) (declared_among item.now)) }
{
    match item {
        Members::Contract(declared) => declared.counted.all.len(),
        _ => 0,
    }
}

fn add_counted(names: &mut Vec<Span>, item: &Members<'_>) -> Result<(), AllocError>
    ensures { OnOk result (names.new.items
        ≡ names.old.items ++ flat_map (λ d. counted_states (outlined_states d.outline)) (declared_among item.now)) }
{
    match item {
        Members::Contract(declared) => add_states(names, &declared.outline.states),
        _ => Ok(()),
    }
}

fn add_states(names: &mut Vec<Span>, states: &[&State]) -> Result<(), AllocError>
    ensures { OnOk result (names.new.items ≡ names.old.items ++ counted_states (map (λ s. state_tree s.now) states.now)) }
{
    for state in states {
        names.push(state.name)?;
        add_paths(names, paths(state))?;
    }
    Ok(())
}

fn add_paths(names: &mut Vec<Span>, paths: &[Path]) -> Result<(), AllocError>
    ensures { OnOk result (names.new.items ≡ names.old.items ++ flat_map unnamed_of (map path_tree paths.now)) }
{
    for path in paths {
        add_messages(names, &path.others)?;
    }
    Ok(())
}

fn add_messages(names: &mut Vec<Span>, edges: &[Edge]) -> Result<(), AllocError>
    ensures { OnOk result (names.new.items ≡ names.old.items ++ map (λ e. e.message) edges.now) }
{
    for edge in edges {
        names.push(edge.message)?;
    }
    Ok(())
}
