//! Mistakes in the paths of states.

ghost use Rattle.std.specs.Prelude.{List, OnOk};
ghost use Rattle.std.specs.List.{flat_map};
ghost use Rattle.source.specs.declared.token.Span.{Span};
ghost use Rattle.tree.specs.Trees.{path_tree, state_tree};
ghost use Rattle.declarations.specs.ContractMistakes.{path_mistakes, state_mistakes};
ghost use Rattle.declarations.specs.Mistakes.{Adds};
ghost use Rattle.declarations.specs.Listed.{asked_message};
ghost use Rattle.declarations.specs.Outlines.{outlined_states};
ghost use Rattle.tables.specs.Tables.{IsTable};
ghost use Rattle.tables.specs.Words.{words_at};

use crate::judging::judge_name;
use crate::members::Declared;
use crate::mistake::{Mistake, NameSort};
use crate::outline::paths;
use source::{Memory, Span};
use tables::Table;
use tree::{Edge, Path, State};

/// Adds the messages and states on the paths of a state that its contract does not declare.
pub(crate) fn judge_state(
    text: &[u8],
    declared: &Declared<'_>,
    state: &State,
    found: &mut Vec<Mistake>,
) -> Result<(), Memory>
    ensures { (messages states : List Span) → IsTable (words_at text.now messages) declared.now.messages
        → IsTable (words_at text.now states) declared.now.states → OnOk result
        (Adds found.old.items found.new.items (state_mistakes text.now messages states (state_tree state.now))) }
{
    for path in paths(state) {
        judge_path(text, declared, path, found)?;
    }
    Ok(())
}

fn judge_path(
    text: &[u8],
    declared: &Declared<'_>,
    path: &Path,
    found: &mut Vec<Mistake>,
) -> Result<(), Memory>
    ensures { (messages states : List Span) → IsTable (words_at text.now messages) declared.now.messages
        → IsTable (words_at text.now states) declared.now.states → OnOk result
        (Adds found.old.items found.new.items (path_mistakes text.now messages states (path_tree path.now))) }
{
    judge_message(text, &declared.messages, path.first.message, found)?;
    judge_edges(text, &declared.messages, &path.others, found)?;
    let sort = NameSort::State(None);
    judge_name(text, &declared.states, path.target, sort, found)
}

/// Adds the message if its contract does not declare it.
fn judge_message(
    text: &[u8],
    table: &Table<'_>,
    name: Span,
    found: &mut Vec<Mistake>,
) -> Result<(), Memory>
    ensures { (names : List Span) → IsTable (words_at text.now names) table.now
        → OnOk result (Adds found.old.items found.new.items (asked_message text.now names name)) }
{
    judge_name(text, table, name, NameSort::Message(None), found)
}

fn judge_edges(
    text: &[u8],
    table: &Table<'_>,
    edges: &[Edge],
    found: &mut Vec<Mistake>,
) -> Result<(), Memory>
    ensures { (names : List Span) → IsTable (words_at text.now names) table.now → OnOk result
        (Adds found.old.items found.new.items (flat_map (λ e. asked_message text.now names e.message) edges.now)) }
{
    for edge in edges {
        judge_message(text, table, edge.message, found)?;
    }
    Ok(())
}

/// Adds the messages and states on the paths of these states that their contract does not declare.
pub(crate) fn judge_states(
    text: &[u8],
    declared: &Declared<'_>,
    found: &mut Vec<Mistake>,
) -> Result<(), Memory>
    ensures { (messages states : List Span) → IsTable (words_at text.now messages) declared.now.messages
        → IsTable (words_at text.now states) declared.now.states → OnOk result (Adds found.old.items found.new.items
        (flat_map (state_mistakes text.now messages states) (outlined_states declared.now.outline))) }
{
    for state in &declared.outline.states {
        judge_state(text, declared, state, found)?;
    }
    Ok(())
}
