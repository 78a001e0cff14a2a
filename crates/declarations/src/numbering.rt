//! Numbers for the messages and the states of a contract, in order of the text.

ghost use Rattle.std.specs.Prelude.{◌≡◌, ◌+◌, ◌^◌, ◌<◌, length, map, IfOk, string_bytes};
ghost use Rattle.tree.specs.Trees.{message_tree};
ghost use Rattle.declarations.specs.Labels.{AreLabels};
ghost use Rattle.declarations.specs.Numbered.{counted_as};
ghost use Rattle.program.specs.Parts.{message_model, state_model};
ghost use Rattle.declarations.specs.Resolution.{messages_from, numbered_states};

use crate::labels::Labels;
use crate::state_names::StateName;
use program::{Message, MessageId, State, StateId};
use source::Memory;
use std::alloc::Global;

/// Returns the messages, numbered from `before`, which is the number of messages before them in the text.
pub(crate) fn number_messages(
    alloc: Global,
    text: &[u8],
    messages: &[&tree::Message],
    before: u32,
) -> Result<Vec<Message>, Memory>
    requires { before + length messages.now < 2 ^ 32 }
    ensures { IfOk result (λ numbered. map message_model numbered.items
        ≡ messages_from text.now before (map (λ m. message_tree m.now) messages.now)) }
{
    let mut numbered = Vec::with_capacity(alloc, messages.len())?;
    for (i, message) in messages.iter().enumerate() {
        let name = String::from_utf8_lossy(alloc, message.name.slice(text))?;
        numbered.push(Message {
            id: MessageId(before + i as u32),
            name,
            direction: message.direction,
        })?;
    }
    Ok(numbered)
}

/// Returns the states, numbered from `before`, which is the number of states before them in the text. Appends their
/// names to `names`.
pub(crate) fn number_states(
    alloc: Global,
    labels: &Labels<'_, '_>,
    names: &mut String,
    states: &[StateName],
    before: u32,
) -> Result<Vec<State>, Memory>
    requires labels { AreLabels labels.now (string_bytes names.old) }
    requires room { before + length states.now < 2 ^ 32 }
    ensures { IfOk result (λ numbered. map (state_model (string_bytes names.new)) numbered.items
        ≡ numbered_states before (map (counted_as labels.now.text.now) states.now)) }
{
    let mut numbered = Vec::with_capacity(alloc, states.len())?;
    for (i, state) in states.iter().enumerate() {
        numbered.push(State {
            id: StateId(before + i as u32),
            name: labels.part(alloc, names, *state)?,
            place: state.place(),
        })?;
    }
    Ok(numbered)
}
