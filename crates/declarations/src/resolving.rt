//! From contracts as trees to contracts in numbers.

ghost use Rattle.std.specs.Prelude.{◌≡◌, [], ◌∷◌, ◌++◌, ◌+◌, ◌^◌, ◌<◌, All, length, map, IfOk, OnOk};
ghost use Rattle.tree.specs.Trees.{contracts_of};
ghost use Rattle.declarations.specs.Declarations.{counted_states};
ghost use Rattle.declarations.specs.ItemMistakes.{contracts_mistakes};
ghost use Rattle.declarations.specs.Outlines.{outlined_messages, outlined_states};
ghost use Rattle.declarations.specs.Ready.{IsReady, declared_in, declared_messages, declared_states, resolved_declared, all_resolved};
ghost use Rattle.declarations.specs.Resolution.{message_count, resolved_contracts};
ghost use Rattle.declarations.specs.Scopes.{IsScope, declared_among, program_of_scope};
ghost use Rattle.program.specs.Parts.{AreApart, IsWhole, contract_parts, contract_model};

use crate::edges::edges_of;
use crate::labels::Labels;
use crate::meaning::Meaning;
use crate::members::{Declared, Members};
use crate::numbering::{number_messages, number_states};
use crate::scope::Scope;
use program::{Contract, StateId};
use source::Memory;
use std::alloc::Global;

/// Returns the contracts in scope, in order of the text, each with its messages, states and edges.
///
/// Messages and states are each numbered from 0 through the whole program, so no two messages and no two states share
/// a number. A named state is numbered at its name, followed by the unnamed states of its paths. A name in an edge
/// means the first declaration of that name in its contract.
///
/// # Errors
/// `Memory` if an allocation fails.
pub fn resolve_contracts(alloc: Global, scope: &Scope<'_>) -> Result<Vec<Contract>, Memory>
    requires scope { IsScope (program_of_scope scope.now) scope.now }
    requires clean { contracts_mistakes (program_of_scope scope.now) ≡ [] }
    requires few { message_count (contracts_of (program_of_scope scope.now).items) < 2 ^ 32 }
    ensures resolved { IfOk result (λ contracts. map contract_model contracts.items
        ≡ resolved_contracts scope.now.text.now (contracts_of (program_of_scope scope.now).items)) }
    ensures apart { IfOk result (λ contracts. AreApart (map contract_parts contracts.items)) }
    ensures whole { IfOk result (λ contracts. All (λ c. IsWhole (contract_parts c)) contracts.items) }
{
    let contracts = resolve_members(alloc, scope.text, &scope.members)?;
    Ok(contracts)
}

/// The numbers of messages and of states before some point of the text.
#[derive(Clone, Copy)]
struct Before {
    messages: u32,
    states: u32,
}

/// Returns the contracts among these items, in order. The numbers of each begin after those of the contracts before it.
fn resolve_members(
    alloc: Global,
    text: &[u8],
    items: &[Members<'_>],
) -> Result<Vec<Contract>, Memory>
    requires ready { All (IsReady text.now) (declared_in items.now) }
    requires messages { declared_messages (declared_in items.now) < 2 ^ 32 }
    requires states { declared_states (declared_in items.now) < 2 ^ 32 }
    ensures { IfOk result (λ contracts. map contract_model contracts.items ≡ all_resolved text.now (declared_in items.now)) }
{
    let mut contracts = Vec::new(alloc);
    let mut before = Before {
        messages: 0,
        states: 0,
    };
    for item in items {
        add_item(alloc, text, item, &mut before, &mut contracts)?;
    }
    Ok(contracts)
}

/// Adds the contract that an item is, if it is one, and counts its messages and states.
fn add_item(
    alloc: Global,
    text: &[u8],
    item: &Members<'_>,
    before: &mut Before,
    contracts: &mut Vec<Contract>,
) -> Result<(), Memory>
    requires ready { All (IsReady text.now) (declared_among item.now) }
    requires messages { before.old.messages + declared_messages (declared_among item.now) < 2 ^ 32 }
    requires states { before.old.states + declared_states (declared_among item.now) < 2 ^ 32 }
    ensures messages { OnOk result (before.new.messages ≡ before.old.messages + declared_messages (declared_among item.now)) }
    ensures states { OnOk result (before.new.states ≡ before.old.states + declared_states (declared_among item.now)) }
    ensures contracts { OnOk result (map contract_model contracts.new.items ≡ map contract_model contracts.old.items
        ++ map (resolved_declared text.now before.old.messages before.old.states) (declared_among item.now)) }
{
    match item {
        Members::Contract(declared) => add_contract(alloc, text, declared, before, contracts),
        _ => Ok(()),
    }
}

/// Adds the contract, and counts its messages and states.
fn add_contract(
    alloc: Global,
    text: &[u8],
    declared: &Declared<'_>,
    before: &mut Before,
    contracts: &mut Vec<Contract>,
) -> Result<(), Memory>
    requires ready { IsReady text.now declared.now }
    requires messages { before.old.messages + length (outlined_messages declared.now.outline) < 2 ^ 32 }
    requires states { before.old.states + length (counted_states (outlined_states declared.now.outline)) < 2 ^ 32 }
    ensures messages { OnOk result (before.new.messages ≡ before.old.messages + length (outlined_messages declared.now.outline)) }
    ensures states { OnOk result (before.new.states ≡ before.old.states + length (counted_states (outlined_states declared.now.outline))) }
    ensures contracts { OnOk result (map contract_model contracts.new.items ≡ map contract_model contracts.old.items
        ++ resolved_declared text.now before.old.messages before.old.states declared.now ∷ []) }
{
    let contract = resolve_contract(alloc, text, declared, before.messages, before.states)?;
    before.messages += contract.messages.len() as u32;
    before.states += contract.states.len() as u32;
    contracts.push(contract)?;
    Ok(())
}

/// Returns the contract, with its messages numbered from `messages_before` and its states from `states_before`.
fn resolve_contract(
    alloc: Global,
    text: &[u8],
    declared: &Declared<'_>,
    messages_before: u32,
    states_before: u32,
) -> Result<Contract, Memory>
    requires ready { IsReady text.now declared.now }
    requires messages { messages_before + length (outlined_messages declared.now.outline) < 2 ^ 32 }
    requires states { states_before + length (counted_states (outlined_states declared.now.outline)) < 2 ^ 32 }
    ensures { IfOk result (λ c. contract_model c ≡ resolved_declared text.now messages_before states_before declared.now) }
{
    let outline = &declared.outline;
    let messages = number_messages(alloc, text, &outline.messages, messages_before)?;
    let mut printed = String::new(alloc);
    let labels = Labels::of(alloc, text, declared, &mut printed)?;
    let states = number_states(
        alloc,
        &labels,
        &mut printed,
        &declared.counted.all,
        states_before,
    )?;
    let meaning = Meaning {
        text,
        declared,
        messages_before,
        states_before,
        named: &declared.counted.named,
    };
    let edges = edges_of(alloc, &meaning)?;
    Ok(Contract {
        name: String::from_utf8_lossy(alloc, outline.name.slice(text))?,
        first: StateId(states_before),
        state_names: printed,
        states,
        messages,
        edges,
    })
}
