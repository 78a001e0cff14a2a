//! What messages bring.

ghost use Rattle.std.specs.Prelude.{◌≡◌, ℕ, ◌++◌, IfOk, OnOk, map};
ghost use Rattle.std.specs.List.{flat_map};
ghost use Rattle.tree.specs.Trees.{contract_of, definition_tree, member_tree, message_tree};
ghost use Rattle.declarations.specs.Declarations.{message_among, messages_of};
ghost use Rattle.declarations.specs.Program.{ProgramText};
ghost use Rattle.resolving.specs.Around.{IsDirectory};
ghost use Rattle.resolving.specs.Brought.{payload_types, params_held};
ghost use Rattle.program.specs.Programs.{type_lists};

use crate::around::Directory;
use crate::types::type_held;
use program::HeapType;
use std::alloc::{AllocError, Global};
use tree::{Definition, Member, Message, MessageParameter};

/// Returns what the parameters of the exchange heap among these hold, in order.
fn params_held(
    alloc: Global,
    directory: &Directory<'_, '_>,
    params: &[MessageParameter],
) -> Result<Vec<HeapType>, AllocError>
    ensures { (p : ProgramText) → IsDirectory p directory.now → IfOk result (λ types. types.items ≡ params_held p params.now) }
{
    let mut types = Vec::new(alloc);
    for param in params {
        if let Some(ty) = type_held(directory, param.ty) {
            types.push(ty)?;
        }
    }
    Ok(types)
}

/// Adds what these messages bring.
fn add_messages(
    alloc: Global,
    directory: &Directory<'_, '_>,
    messages: &[Message],
    told: &mut Vec<Vec<HeapType>>,
) -> Result<(), AllocError>
    ensures { (p : ProgramText) → IsDirectory p directory.now
        → OnOk result (type_lists told.new.items ≡ type_lists told.old.items ++ map (payload_types p) (map message_tree messages.now)) }
{
    for message in messages {
        told.push(params_held(alloc, directory, &message.params)?)?;
    }
    Ok(())
}

/// Adds what the messages among these members bring.
fn add_members(
    alloc: Global,
    directory: &Directory<'_, '_>,
    members: &[Member],
    told: &mut Vec<Vec<HeapType>>,
) -> Result<(), AllocError>
    ensures { (p : ProgramText) → IsDirectory p directory.now → OnOk result (type_lists told.new.items
        ≡ type_lists told.old.items ++ map (payload_types p) (flat_map message_among (map member_tree members.now))) }
{
    for member in members {
        if let Member::Message(message) = member {
            told.push(params_held(alloc, directory, &message.params)?)?;
        }
    }
    Ok(())
}

/// Adds what the messages of a contract bring, in order of the text.
pub(crate) fn add_brought(
    alloc: Global,
    directory: &Directory<'_, '_>,
    definition: &Definition,
    told: &mut Vec<Vec<HeapType>>,
) -> Result<(), AllocError>
    ensures { (p : ProgramText) → IsDirectory p directory.now → OnOk result (type_lists told.new.items
        ≡ type_lists told.old.items ++ map (payload_types p) (flat_map messages_of (contract_of (definition_tree definition.now)))) }
{
    if let Definition::Contract(contract) = definition {
        add_messages(alloc, directory, &contract.messages, told)?;
        add_members(alloc, directory, &contract.members, told)?;
    }
    Ok(())
}
