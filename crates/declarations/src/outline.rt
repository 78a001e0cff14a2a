//! What a contract declares, in order of the text.

ghost use Rattle.std.specs.Prelude.{◌≡◌, ◌++◌, ◌∷◌, [], map, IfOk, OnOk};
ghost use Rattle.std.specs.List.{flat_map};
ghost use Rattle.tree.specs.Trees.{contract_tree, message_tree, state_tree, member_tree, path_tree, body_tree};
ghost use Rattle.declarations.specs.Declarations.{message_among, state_among, paths_of};

use source::Span;
use std::alloc::{AllocError, Global};
use std::slice;
use tree::{Contract, Member, Message, Path, State, StateBody};

/// The name of a contract, and its messages and states, each in order of the text.
#[derive(Drop)]
pub(crate) struct Outline<'a> {
    pub(crate) name: Span,
    pub(crate) messages: Vec<&'a Message>,
    pub(crate) states: Vec<&'a State>,
}

impl<'a> Outline<'a> {
    ghost use Rattle.declarations.specs.Outlines.{IsOutline};

    /// Returns the outline of a contract.
    pub(crate) fn of(alloc: Global, contract: &'a Contract) -> Result<Outline<'a>, AllocError>
        ensures { IfOk result (IsOutline (contract_tree contract.now)) }
    {
        let mut messages = Vec::new(alloc);
        for message in &contract.messages {
            messages.push(message)?;
        }
        let mut states = Vec::new(alloc);
        states.push(&contract.state)?;
        add_members(&mut messages, &mut states, &contract.members)?;
        Ok(Outline {
            name: contract.name,
            messages,
            states,
        })
    }
}

/// Adds the messages and the states among these members.
fn add_members<'a>(
    messages: &mut Vec<&'a Message>,
    states: &mut Vec<&'a State>,
    members: &'a [Member],
) -> Result<(), AllocError>
    ensures messages { OnOk result (map (λ m. message_tree m.now) messages.new.items
        ≡ map (λ m. message_tree m.now) messages.old.items ++ flat_map message_among (map member_tree members.now)) }
    ensures states { OnOk result (map (λ s. state_tree s.now) states.new.items
        ≡ map (λ s. state_tree s.now) states.old.items ++ flat_map state_among (map member_tree members.now)) }
{
    for member in members {
        match member {
            Member::Message(message) => messages.push(message)?,
            Member::State(state) => states.push(state)?,
        }
    }
    Ok(())
}

/// Returns the paths of a state, in order.
pub(crate) fn paths(state: &State) -> &[Path]
    ensures { map path_tree result.now ≡ paths_of (body_tree state.now.body) }
{
    match &state.body {
        StateBody::Empty => &[],
        StateBody::Path(path) => slice::from_ref(path),
        StateBody::One { paths, .. } => paths,
    }
}
