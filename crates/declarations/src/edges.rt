//! The edges of a contract, with numbers for its states and messages.

ghost use Rattle.std.specs.Prelude.{◌≡◌, ◌++◌, ◌+◌, ◌^◌, ◌<◌, [], length, map, OnOk, IfOk};
ghost use Rattle.std.specs.List.{flat_map};
ghost use Rattle.tree.specs.Trees.{path_tree};
ghost use Rattle.declarations.specs.Declarations.{unnamed_of};
ghost use Rattle.declarations.specs.ContractMistakes.{path_mistakes, state_mistakes};
ghost use Rattle.declarations.specs.Meant.{IsMeaning, meanings, message_names, state_names, text_of, states_in};
ghost use Rattle.declarations.specs.Resolution.{path_edges, paths_edges, edges_from};

use crate::meaning::Meaning;
use crate::outline::paths;
use program::Edge;
use source::Memory;
use std::alloc::Global;
use tree::Path;

/// Returns the edges, in order of the text.
pub(crate) fn edges_of(alloc: Global, meaning: &Meaning<'_, '_>) -> Result<Vec<Edge>, Memory>
    requires meaning { IsMeaning meaning.now }
    requires clean { flat_map (state_mistakes (text_of meaning.now) (message_names meaning.now) (state_names meaning.now))
        (states_in meaning.now) ≡ [] }
    ensures { IfOk result (λ edges. edges.items ≡ edges_from (meanings meaning.now) meaning.now.states_before (states_in meaning.now)) }
{
    // Most states have one edge. Room for that many saves copying a list that grows.
    let mut edges = Vec::with_capacity(alloc, meaning.declared.counted.all.len())?;
    for (i, state) in meaning.declared.outline.states.iter().enumerate() {
        let number = meaning.states_before + meaning.named[i] as u32;
        add_paths(meaning, number, paths(state), &mut edges)?;
    }
    Ok(edges)
}

/// Adds the edges of the paths of the state with this number. The unnamed states of these paths are numbered after it.
fn add_paths(
    meaning: &Meaning<'_, '_>,
    state: u32,
    paths: &[Path],
    edges: &mut Vec<Edge>,
) -> Result<(), Memory>
    requires meaning { IsMeaning meaning.now }
    requires clean { flat_map (path_mistakes (text_of meaning.now) (message_names meaning.now) (state_names meaning.now))
        (map path_tree paths.now) ≡ [] }
    requires room { state + 1 + length (flat_map unnamed_of (map path_tree paths.now)) < 2 ^ 32 }
    ensures { OnOk result (edges.new.items ≡ edges.old.items ++ paths_edges (meanings meaning.now) state (map path_tree paths.now)) }
{
    let mut unnamed = state + 1;
    for path in paths {
        add_path(meaning, state, unnamed, path, edges)?;
        unnamed += path.others.len() as u32;
    }
    Ok(())
}

/// Adds the edges of a path from `state`. Its unnamed states are numbered from `unnamed`.
fn add_path(
    meaning: &Meaning<'_, '_>,
    state: u32,
    unnamed: u32,
    path: &Path,
    edges: &mut Vec<Edge>,
) -> Result<(), Memory>
    requires meaning { IsMeaning meaning.now }
    requires clean { path_mistakes (text_of meaning.now) (message_names meaning.now) (state_names meaning.now) (path_tree path.now) ≡ [] }
    requires room { unnamed + length path.now.others.items < 2 ^ 32 }
    ensures { OnOk result (edges.new.items ≡ edges.old.items ++ path_edges (meanings meaning.now) state unnamed (path_tree path.now)) }
{
    edges.reserve(path.others.len().saturating_add(1))?;
    let mut from = state;
    let mut edge = path.first;
    let mut to = unnamed;
    for next in &path.others {
        edges.push(meaning.edge(from, edge, to))?;
        from = to;
        to += 1;
        edge = *next;
    }
    let target = meaning.state(path.target);
    edges.push(meaning.edge(from, edge, target))?;
    Ok(())
}
